ghost use Rattle.std.specs.Prelude.{◌≡◌, IsTrue, Some, None, if◌then◌else◌};
ghost use Rattle.res_core.specs.AttributeViews.{settings};
ghost use Rattle.res_core.specs.PlainAttributes.{are_plain};

use crate::attribute::Attribute;
use crate::resource::Resource;
use pp_values::is_plain_value;
use std::marker::Model;

/// A resource as a catalog holds it, or as a node exports it: no value of its attributes has a data type or `default`
/// within, so that documents have a form of each.
///
/// A contract sees the resource.
pub struct PlainResource {
    resource: Resource,
}

// By hand, so that no crate above proves the drops of its parts again.
impl Drop for PlainResource {
    fn drop(self) {
        let PlainResource {
            resource: _resource,
        } = self;
    }
}

impl Model for PlainResource {
    ghost use Rattle.res_core.specs.declared.resource.Resource.{Resource as Seen};
    ghost use Rattle.res_core.specs.ResourceCodes.{coded_resource};

    ghost Value = { Seen };

    ghost coded = { coded_resource };

    ghost use Rattle.std.specs.Prelude.{IsTrue};
    ghost use Rattle.res_core.specs.PlainAttributes.{are_plain};

    ghost view = { λ p. p.resource };

    ghost invariant = { λ p. IsTrue (are_plain p.resource.attributes) };
}

impl PlainResource {
    pub fn new(resource: Resource) -> PlainResource
        requires { IsTrue (are_plain resource.attributes) }
        ensures { result ≡ resource }
    {
        PlainResource { resource }
    }

    /// The resource, where all of its values are plain.
    pub fn checked(resource: Resource) -> Option<PlainResource>
        ensures { result ≡ (if are_plain resource.attributes then Some resource else None) }
    {
        if has_plain_values(resource.attributes.as_slice()) {
            return Some(PlainResource { resource });
        }
        None
    }

    /// The resource, whose values are plain.
    pub fn as_resource(&self) -> &Resource
        ensures resource { result.now ≡ self.now }
        ensures plain { IsTrue (are_plain self.now.attributes) }
    {
        &self.resource
    }

    /// Takes the resource out.
    pub fn into_resource(self) -> Resource
        ensures resource { result ≡ self }
        ensures plain { IsTrue (are_plain self.attributes) }
    {
        let PlainResource { resource } = self;
        resource
    }
}

fn has_plain_values(attributes: &[Attribute]) -> bool
    ensures { result ≡ are_plain (settings attributes.now) }
{
    let mut left = attributes;
    while let [attribute, after @ ..] = left {
        if !is_plain_value(&attribute.value) {
            return false;
        }
        left = after;
    }
    true
}
