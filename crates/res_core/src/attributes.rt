ghost use Rattle.std.specs.Prelude.{◌≡◌, [], ◌↔◌, length, IsTrue, find, option_map, option_copied};
ghost use Rattle.std.specs.Str.{bytes_eq};
ghost use Rattle.pp_values.specs.Rising.{is_rising};
ghost use Rattle.pp_values.specs.Settings.{setting_names};
ghost use Rattle.pp_values.specs.Views.{view};
ghost use Rattle.res_core.specs.AttributeViews.{settings, set_in};

use crate::attribute::Attribute;
use pp_values::{Text, Value};
use std::alloc::Global;
use std::cmp::Ordering;
use std::marker::Model;

/// The attributes of a resource, whose names rise in byte order. No name stands twice.
///
/// A contract sees each name with what its value says.
pub struct Attributes {
    items: Vec<Attribute>,
}

// By hand, so that no crate above proves the drops of values again.
impl Drop for Attributes {
    fn drop(self) {
        let Attributes { items: _items } = self;
    }
}

impl Model for Attributes {
    ghost use Rattle.std.specs.Prelude.{List};
    ghost use Rattle.pp_values.specs.Settings.{Setting, coded_settings};

    ghost Value = { List Setting };

    ghost coded = { coded_settings };

    ghost use Rattle.std.specs.Prelude.{IsTrue};
    ghost use Rattle.pp_values.specs.Rising.{is_rising};
    ghost use Rattle.pp_values.specs.Settings.{setting_names};
    ghost use Rattle.res_core.specs.AttributeViews.{settings};

    ghost view = { λ a. settings a.items.items };

    ghost invariant = { λ a. IsTrue (is_rising (setting_names (settings a.items.items))) };
}

impl Attributes {
    pub fn new(alloc: Global) -> Attributes
        ensures { result ≡ [] }
    {
        Attributes {
            items: Vec::new(alloc),
        }
    }

    pub fn from_vec(items: Vec<Attribute>) -> Attributes
        requires { IsTrue (is_rising (setting_names (settings items.items))) }
        ensures { result ≡ settings items.items }
    {
        Attributes { items }
    }

    pub fn into_vec(self) -> Vec<Attribute>
        ensures attributes { settings result.items ≡ self }
        ensures rising { IsTrue (is_rising (setting_names self)) }
    {
        let Attributes { items } = self;
        items
    }

    pub fn len(&self) -> usize
        ensures { result ≡ length self.now }
    {
        self.items.len()
    }

    pub fn is_empty(&self) -> bool
        ensures { IsTrue result ↔ (self.now ≡ []) }
    {
        self.items.is_empty()
    }

    pub fn as_slice(&self) -> &[Attribute]
        ensures attributes { settings result.now ≡ self.now }
        ensures rising { IsTrue (is_rising (setting_names self.now)) }
    {
        self.items.as_slice()
    }

    /// What the attribute of this name is set to.
    #[tactic(auto, using(crate::proofs::SettingLemmas::found_setting))]
    pub fn get(&self, name: &Text) -> Option<&Value>
        ensures { option_map (λ v. view v.now) result ≡ set_in self.now name.now }
    {
        match named_in(&self.items, name) {
            Some(attribute) => Some(&attribute.value),
            None => None,
        }
    }
}

/// The attribute of this name, found by halving.
fn named_in<'a>(attributes: &'a [Attribute], name: &Text) -> Option<&'a Attribute>
    requires { IsTrue (is_rising (setting_names (settings attributes.now))) }
    ensures { option_copied result ≡ find (λ a. bytes_eq a.name name.now) attributes.now }
{
    let mut left = attributes;
    loop {
        let (front, back) = left.split_at(left.len() / 2);
        let Some((attribute, after)) = back.split_first() else {
            return None;
        };
        match name.compare(&attribute.name) {
            Ordering::Less => left = front,
            Ordering::Equal => return Some(attribute),
            Ordering::Greater => left = after,
        }
    }
}
