//! Copies of resources.
ghost use Rattle.std.specs.Prelude.{◌≡◌, IfOk};
ghost use Rattle.res_core.specs.AttributeViews.{setting};

use crate::attribute::Attribute;
use crate::attributes::Attributes;
use crate::resource::Resource;
use pp_values::{Memory, copy};
use std::alloc::Global;

/// An attribute of the same name, whose value says the same.
pub fn copy_attribute(alloc: Global, attribute: &Attribute) -> Result<Attribute, Memory>
    ensures { IfOk result (λ a. setting a ≡ setting attribute.now) }
{
    Ok(Attribute {
        name: attribute.name.copy(alloc)?,
        value: copy(alloc, &attribute.value)?,
    })
}

/// The same attributes.
pub fn copy_attributes(alloc: Global, attributes: &Attributes) -> Result<Attributes, Memory>
    ensures { IfOk result (λ a. a ≡ attributes.now) }
{
    let mut items = Vec::with_capacity(alloc, attributes.len())?;
    for attribute in attributes.as_slice() {
        items.push(copy_attribute(alloc, attribute)?)?;
    }
    Ok(Attributes::from_vec(items))
}

/// The same resource.
pub fn copy_resource(alloc: Global, resource: &Resource) -> Result<Resource, Memory>
    ensures { IfOk result (λ r. r ≡ resource.now) }
{
    Ok(Resource {
        kind: resource.kind.copy(alloc)?,
        title: resource.title.copy(alloc)?,
        attributes: copy_attributes(alloc, &resource.attributes)?,
        tags: resource.tags.copy(alloc)?,
    })
}
