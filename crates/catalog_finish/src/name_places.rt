//! Places in a list of resources, by the keys of these.
ghost use Rattle.std.specs.Prelude.{◌≡◌, ℕ, [], cond, List, OnOk};
ghost use Rattle.std.specs.Str.{bytes_eq};
ghost use Rattle.catalog_finish.specs.NameKeys.{under, AddsPlace};

use pp_values::{Memory, Text};
use std::alloc::Global;
use std::collections::BTreeMap;

/// The places of the resources of each key.
pub type Places = BTreeMap<Text, Vec<usize>>;

/// Puts one more place under a key.
pub fn add_place(alloc: Global, places: &mut Places, key: Text, place: usize) -> Result<(), Memory>
    ensures { OnOk result (AddsPlace key place places.old places.new) }
{
    let mut known = taken(alloc, places, &key);
    known.push(place)?;
    drop(places.insert(key, known)?);
    Ok(())
}

/// Takes out the places under a key.
fn taken(alloc: Global, places: &mut Places, key: &Text) -> Vec<usize>
    ensures value { result.items ≡ under key.now places.old }
    ensures rest { (t : List ℕ) → under t places.new ≡ cond (bytes_eq key.now t) [] (under t places.old) }
{
    match places.remove(key) {
        Some(known) => known,
        None => Vec::new(alloc),
    }
}
