//! The pairs of a large hash, whose keys are found without going over all.
ghost use Rattle.std.specs.Prelude.{◌≡◌, ◌<◌, ◌∷◌, ◌++◌, [], IfOk, IsTrue, None, length, vec_len};
ghost use Rattle.pp_values.specs.Keys.{is_key, with_pair};
ghost use Rattle.pp_values.specs.Places.{place_of, with_value};
ghost use Rattle.pp_values.specs.Views.{view, pair_views};

use crate::key_places::KeyPlaces;
use pp_values::{Memory, Pairs, Value};
use std::alloc::Global;
use std::marker::Model;
use std::mem;

/// The pairs of a hash, in order, with the place of each key.
#[derive(Drop)]
pub struct KeyedPairs {
    items: Vec<(Value, Value)>,
    places: KeyPlaces,
}

impl Model for KeyedPairs {
    ghost use Rattle.std.specs.Prelude.{List, IsTrue};
    ghost use Rattle.pp_values.specs.Datum.{Pair};
    ghost use Rattle.pp_values.specs.Codes.{coded_pairs};
    ghost use Rattle.pp_values.specs.Keys.{are_distinct};
    ghost use Rattle.pp_values.specs.Views.{pair_views};
    ghost use Rattle.hiera_merge.specs.KeyPlaces.{ArePlaced};

    ghost Value = { List Pair };

    ghost coded = { coded_pairs };

    ghost view = { λ p. pair_views p.items.items };

    ghost invariant = { λ p. IsTrue (are_distinct (pair_views p.items.items))
        × ArePlaced p.places (pair_views p.items.items) };
}

impl KeyedPairs {
    /// An empty hash.
    pub fn new(alloc: Global) -> KeyedPairs
        ensures { result ≡ [] }
    {
        KeyedPairs {
            items: Vec::new(alloc),
            places: KeyPlaces::new(alloc),
        }
    }

    /// With the value of a key set: in the key's place where it has one, and else at the end.
    #[tactic(auto, using(crate::proofs::Placing::pair_set, crate::proofs::Placing::pair_added, crate::proofs::Placing::place_within))]
    pub fn with(self, alloc: Global, key: Value, value: Value) -> Result<KeyedPairs, Memory>
        requires { IsTrue (is_key (view key)) }
        ensures { IfOk result (λ p. p ≡ with_pair (view key) (view value) self) }
    {
        match self.place_of(&key) {
            Some(place) => Ok(with_value(self, place, value)),
            None => with_more(alloc, self, key, value),
        }
    }

    /// Where the pair of a key stands.
    fn place_of(&self, key: &Value) -> Option<usize>
        ensures { result ≡ place_of (view key.now) self.now }
    {
        self.places.get(key)
    }

    /// The hash that was put together.
    pub fn into_pairs(self) -> Result<Pairs, Memory>
        ensures { IfOk result (λ ps. ps ≡ self) }
    {
        let KeyedPairs {
            items,
            places: _places,
        } = self;
        Pairs::from_vec(items)
    }
}

/// With the value of the pair at a place set.
fn with_value(pairs: KeyedPairs, place: usize, value: Value) -> KeyedPairs
    requires { place < length pairs }
    ensures { result ≡ with_value (view value) place pairs }
{
    let KeyedPairs { items, places } = pairs;
    let mut items = items;
    set_value(&mut items, place, value);
    KeyedPairs { items, places }
}

/// With one pair more behind those that are there, whose key is none of theirs.
fn with_more(
    alloc: Global,
    pairs: KeyedPairs,
    key: Value,
    value: Value,
) -> Result<KeyedPairs, Memory>
    requires key { IsTrue (is_key (view key)) }
    requires new { place_of (view key) pairs ≡ None }
    ensures { IfOk result (λ p. p ≡ pairs ++ (view key, view value) ∷ []) }
{
    let KeyedPairs { items, places } = pairs;
    let mut items = items;
    let mut places = places;
    places.set(alloc, &key, items.len())?;
    items.push((key, value))?;
    Ok(KeyedPairs { items, places })
}

fn set_value(items: &mut Vec<(Value, Value)>, place: usize, value: Value)
    requires { place < vec_len items.old }
    ensures { pair_views items.new.items ≡ with_value (view value) place (pair_views items.old.items) }
{
    drop(mem::replace(&mut items[place].1, value));
}
