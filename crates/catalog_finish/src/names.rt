//! What resources are called, so that one of the same name is found without going over all.
ghost use Rattle.std.specs.Prelude.{◌≡◌, ◌∷◌, [], ◌++◌, IfOk, find, option_map, option_to_list, slice_get};
ghost use Rattle.pp_values.specs.Views.{view};
ghost use Rattle.catalog_finish.specs.Naming.{called, all_called, same_name as same_meant};
ghost use Rattle.catalog_finish.specs.NameKeys.{key as key_meant, letters as letters_meant, picked, under};

use crate::name_places::{Places, add_place};
use crate::named::Named;
use pp_ops::is_same;
use pp_values::{Memory, Text, Value};
use std::alloc::Global;
use std::marker::Model;

/// What the resources so far are called. No two of a kind are called the same.
#[derive(Drop)]
pub struct Names {
    items: Vec<Named>,
    /// Where in `items` those of a key stand.
    places: Places,
}

impl Model for Names {
    ghost use Rattle.std.specs.Prelude.{List};
    ghost use Rattle.catalog_finish.specs.Naming.{Called, all_called};

    ghost Value = { List Called };

    ghost use Rattle.catalog_finish.specs.NameCodes.{coded_names};

    ghost coded = { coded_names };

    ghost use Rattle.catalog_finish.specs.NameKeys.{IsTable};

    ghost view = { λ n. all_called n.items.items };

    ghost invariant = { λ n. IsTable n.places (all_called n.items.items) };
}

impl Names {
    pub fn new(alloc: Global) -> Names
        ensures { result ≡ [] }
    {
        Names {
            items: Vec::new(alloc),
            places: Places::new(alloc),
        }
    }

    /// The first one of the same name, whose key is given too.
    pub fn earlier(&self, key: &Text, named: &Named) -> Option<&Named>
        requires { key.now ≡ key_meant (called named.now) }
        ensures { option_map (λ n. called n.now) result ≡ find (same_meant (called named.now)) self.now }
    {
        among(&self.items, &self.places, key, named)
    }
}

/// The names with one more behind them, whose key is given too.
pub fn with_one_more(alloc: Global, names: Names, key: Text, named: Named) -> Result<Names, Memory>
    requires { key ≡ key_meant (called named) }
    ensures { IfOk result (λ n. n ≡ names ++ called named ∷ []) }
{
    let Names { items, places } = names;
    let mut items = items;
    let mut places = places;
    add_place(alloc, &mut places, key, items.len())?;
    items.push(named)?;
    Ok(Names { items, places })
}

/// The letters of a text; what is no text has none.
fn letters(value: &Value) -> &str
    ensures { result.now ≡ letters_meant (view value.now) }
{
    match value {
        Value::Text(text) => text.as_str(),
        _ => "",
    }
}

/// The key under which those of this name stand.
pub fn key_of(alloc: Global, named: &Named) -> Result<Text, Memory>
    ensures { IfOk result (λ t. t ≡ key_meant (called named.now)) }
{
    let kind = named.kind.as_str();
    let name = letters(&named.name);
    let provider = letters(&named.provider);
    let room = kind
        .len()
        .saturating_add(name.len())
        .saturating_add(provider.len());
    let mut out = String::with_capacity(alloc, room.saturating_add(2))?;
    out.push_str(kind)?;
    out.push_str(" ")?;
    out.push_str(name)?;
    out.push_str(" ")?;
    out.push_str(provider)?;
    Ok(Text::new(out))
}

fn same_name(a: &Named, b: &Named) -> bool
    ensures { result ≡ same_meant (called a.now) (called b.now) }
{
    a.kind == b.kind && (is_same(&a.name, &b.name) && is_same(&a.provider, &b.provider))
}

fn at(items: &[Named], place: usize) -> Option<&Named>
    ensures { option_map (λ n. called n.now) result ≡ slice_get (all_called items.now) place }
{
    items.get(place)
}

/// The one at a place, where it is called the same.
fn same_at<'a>(items: &'a [Named], place: usize, named: &Named) -> Option<&'a Named>
    ensures { option_map (λ n. called n.now) result
        ≡ find (same_meant (called named.now)) (option_to_list (slice_get (all_called items.now) place)) }
{
    match at(items, place) {
        Some(item) => {
            if same_name(named, item) {
                return Some(item);
            }
            None
        }
        None => None,
    }
}

fn first_same<'a>(items: &'a [Named], places: &[usize], named: &Named) -> Option<&'a Named>
    ensures { option_map (λ n. called n.now) result
        ≡ find (same_meant (called named.now)) (picked (all_called items.now) places.now) }
{
    for place in places {
        if let Some(item) = same_at(items, *place, named) {
            return Some(item);
        }
    }
    None
}

fn among<'a>(items: &'a [Named], places: &Places, key: &Text, named: &Named) -> Option<&'a Named>
    ensures { option_map (λ n. called n.now) result
        ≡ find (same_meant (called named.now)) (picked (all_called items.now) (under key.now places.now)) }
{
    match places.get(key) {
        Some(known) => first_same(items, known.as_slice(), named),
        None => None,
    }
}
