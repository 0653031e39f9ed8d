//! Attributes that are put together one by one.
ghost use Rattle.std.specs.Prelude.{◌≡◌, ◌<◌, ◌≤◌, [], length, IfOk, IsTrue};
ghost use Rattle.std.specs.List.{insert, slice_set};
ghost use Rattle.std.specs.BTreeMap.{insert_entry};
ghost use Rattle.eval_classes.specs.AttributeSets as spec;
ghost use Rattle.pp_values.specs.Rising.{is_rising, text_cmp};
ghost use Rattle.pp_values.specs.Settings.{setting_names};
ghost use Rattle.pp_values.specs.Views.{view};
ghost use Rattle.res_core.specs.AttributeViews.{setting, settings};

use crate::attributes::attributes_from;
use eval_world::Evaluated;
use pp_values::{Memory, Text, Value};
use res_core::{Attribute, Attributes};
use std::alloc::Global;
use std::cmp::Ordering;
use std::collections::BTreeMap;
use std::marker::Model;

/// How many attributes are held in a list, in which a name is compared with one after another. More are held in a map.
const LISTED_ATTRIBUTES: usize = 64;

/// Attributes that are put in one by one. A contract sees each name with what its value says, by the order of the
/// names.
pub struct AttributeSet {
    form: SetForm,
}

#[derive(Drop)]
pub(crate) enum SetForm {
    Few(Vec<Attribute>),
    Many(BTreeMap<Text, Evaluated>),
}

// By hand, so that letting one go is one step for whoever holds it.
impl Drop for AttributeSet {
    fn drop(self) {
        let AttributeSet { form: _form } = self;
    }
}

impl Model for AttributeSet {
    ghost use Rattle.std.specs.Prelude.{List};
    ghost use Rattle.pp_values.specs.Settings.{Setting, coded_settings};

    ghost Value = { List Setting };

    ghost coded = { coded_settings };

    ghost use Rattle.std.specs.Prelude.{IsTrue};
    ghost use Rattle.eval_classes.specs.AttributeSets.{form_settings};
    ghost use Rattle.pp_values.specs.Rising.{is_rising};
    ghost use Rattle.pp_values.specs.Settings.{setting_names};

    ghost view = { λ s. form_settings s.form };

    ghost invariant = { λ s. IsTrue (is_rising (setting_names (form_settings s.form))) };
}

impl AttributeSet {
    /// An empty set, into which so many attributes come at most.
    pub fn for_count(alloc: Global, count: usize) -> Result<AttributeSet, Memory>
        ensures { IfOk result (λ s. s ≡ []) }
    {
        let form = if count <= LISTED_ATTRIBUTES {
            SetForm::Few(Vec::with_capacity(alloc, count)?)
        } else {
            SetForm::Many(BTreeMap::new(alloc))
        };
        Ok(AttributeSet { form })
    }

    /// With an attribute put in, in the place of one of its name where there is one.
    #[tactic(auto, using(crate::proofs::Rising::rising_more))]
    pub fn with(self, name: Text, value: Evaluated) -> Result<AttributeSet, Memory>
        ensures { IfOk result (λ s. s ≡ insert_entry text_cmp self name value) }
    {
        let AttributeSet { form } = self;
        match form {
            SetForm::Few(items) => Ok(few(with_few(items, name, value.into_value())?)),
            SetForm::Many(map) => Ok(many(with_many(map, name, value)?)),
        }
    }

    pub fn into_attributes(self, alloc: Global) -> Result<Attributes, Memory>
        ensures { IfOk result (λ a. a ≡ self) }
    {
        let AttributeSet { form } = self;
        match form {
            SetForm::Few(items) => Ok(Attributes::from_vec(items)),
            SetForm::Many(map) => attributes_from(alloc, map),
        }
    }
}

fn few(items: Vec<Attribute>) -> AttributeSet
    requires { IsTrue (is_rising (setting_names (settings items.items))) }
    ensures { result ≡ settings items.items }
{
    AttributeSet {
        form: SetForm::Few(items),
    }
}

fn many(map: BTreeMap<Text, Evaluated>) -> AttributeSet
    requires { IsTrue (is_rising (setting_names map.entries)) }
    ensures { result ≡ map.entries }
{
    AttributeSet {
        form: SetForm::Many(map),
    }
}

fn with_many(
    mut map: BTreeMap<Text, Evaluated>,
    name: Text,
    value: Evaluated,
) -> Result<BTreeMap<Text, Evaluated>, Memory>
    ensures { IfOk result (λ m. m.entries ≡ insert_entry text_cmp map.entries name value) }
{
    drop(map.insert(name, value)?);
    Ok(map)
}

#[tactic(auto, using(crate::proofs::Places::set_there, crate::proofs::Places::put_between, crate::proofs::Places::there_within, crate::proofs::Places::between_within))]
fn with_few(items: Vec<Attribute>, name: Text, value: Value) -> Result<Vec<Attribute>, Memory>
    ensures { IfOk result (λ v. settings v.items ≡ insert_entry text_cmp (settings items.items) name (view value)) }
{
    match place_of(items.as_slice(), &name) {
        Ok(place) => Ok(with_set(items, place, Attribute { name, value })),
        Err(place) => with_put(items, place, Attribute { name, value }),
    }
}

#[tactic(auto, using(crate::proofs::Places::settings_set))]
fn with_set(mut items: Vec<Attribute>, place: usize, attribute: Attribute) -> Vec<Attribute>
    requires { place < length items.items }
    ensures { settings result.items ≡ slice_set (settings items.items) place (setting attribute) }
{
    items[place] = attribute;
    items
}

#[tactic(auto, using(crate::proofs::Places::settings_insert))]
fn with_put(
    mut items: Vec<Attribute>,
    place: usize,
    attribute: Attribute,
) -> Result<Vec<Attribute>, Memory>
    requires { place ≤ length items.items }
    ensures { IfOk result (λ v. settings v.items ≡ insert (settings items.items) place (setting attribute)) }
{
    items.insert(place, attribute)?;
    Ok(items)
}

/// Where the attribute of this name stands, or else where it would.
#[tactic(auto, using(crate::proofs::Places::at_end, crate::proofs::Places::at_less, crate::proofs::Places::at_equal, crate::proofs::Places::at_greater, crate::proofs::Places::further_none))]
fn place_of(items: &[Attribute], name: &Text) -> Result<usize, usize>
    ensures { result ≡ spec.place_in name.now (settings items.now) }
{
    let mut place = 0;
    let mut rest = items;
    while let Some((item, more)) = rest.split_first() {
        match name.compare(&item.name) {
            Ordering::Less => return Err(place),
            Ordering::Equal => return Ok(place),
            Ordering::Greater => {}
        }
        place += 1;
        rest = more;
    }
    Err(place)
}
