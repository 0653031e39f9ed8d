//! What a declaration sets by itself.
ghost use Rattle.std.specs.Prelude.{◌≡◌, ◌∷◌, [], ◌++◌, filter, IfOk, IsTrue, OnOk};
ghost use Rattle.pp_values.specs.Rising.{is_rising};
ghost use Rattle.pp_values.specs.Settings.{setting_names};
ghost use Rattle.res_core.specs.AttributeViews.{setting, settings};
ghost use Rattle.override_rules.specs.Names.{is_set};

use crate::changing::set_to;
use pp_values::Memory;
use res_core::{Attribute, Attributes};
use std::alloc::Global;

/// Those of these attributes that set something, which one that is Undef does not.
pub fn copy_set(alloc: Global, attributes: &Attributes) -> Result<Attributes, Memory>
    ensures set { IfOk result (λ a. a ≡ filter is_set attributes.now) }
    ensures rising { OnOk result (IsTrue (is_rising (setting_names attributes.now))) }
{
    let mut items = Vec::with_capacity(alloc, attributes.len())?;
    for attribute in attributes.as_slice() {
        put_set(alloc, attribute, &mut items)?;
    }
    Ok(Attributes::from_vec(items))
}

fn put_set(alloc: Global, attribute: &Attribute, items: &mut Vec<Attribute>) -> Result<(), Memory>
    ensures { OnOk result (settings items.new.items
        ≡ settings items.old.items ++ filter is_set (setting attribute.now ∷ [])) }
{
    match set_to(alloc, &attribute.value)? {
        Some(value) => {
            let name = attribute.name.copy(alloc)?;
            items.push(Attribute { name, value })?;
            Ok(())
        }
        None => Ok(()),
    }
}
