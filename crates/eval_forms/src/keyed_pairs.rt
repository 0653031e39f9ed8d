//! The pairs of a large hash, whose keys are found without going over all.
ghost use Rattle.std.specs.Prelude.{◌≡◌, ◌<◌, ◌∷◌, ◌++◌, [], IfOk, OnOk, IsTrue, None, Some, if◌then◌else◌, length};
ghost use Rattle.std.specs.Prelude.{vec_len};
ghost use Rattle.pp_values.specs.Datum.{Datum};
ghost use Rattle.pp_values.specs.Keys.{is_key, same_key, with_pair};
ghost use Rattle.pp_values.specs.Places.{place_of, with_value};
ghost use Rattle.pp_values.specs.Views.{view, pair_views};
ghost use Rattle.eval_forms.specs.KeyPlaces.{placed};

use pp_values::{Memory, Pairs, Text, Value};
use std::alloc::Global;
use std::collections::BTreeMap;
use std::marker::Model;
use std::mem;

/// The pairs of a hash, in order, with the place of each key.
#[derive(Drop)]
pub struct KeyedPairs {
    items: Vec<(Value, Value)>,
    /// Where in `items` a number stands as a key.
    numbers: BTreeMap<i64, usize>,
    /// Where in `items` a text stands as a key.
    texts: BTreeMap<Text, usize>,
}

impl Model for KeyedPairs {
    ghost use Rattle.std.specs.Prelude.{List, IsTrue};
    ghost use Rattle.pp_values.specs.Datum.{Pair};
    ghost use Rattle.pp_values.specs.Codes.{coded_pairs};
    ghost use Rattle.pp_values.specs.Keys.{are_distinct};
    ghost use Rattle.pp_values.specs.Views.{pair_views};
    ghost use Rattle.eval_forms.specs.KeyPlaces.{ArePlaced};

    ghost Value = { List Pair };

    ghost coded = { coded_pairs };

    ghost view = { λ p. pair_views p.items.items };

    ghost invariant = { λ p. IsTrue (are_distinct (pair_views p.items.items))
        × ArePlaced p.numbers p.texts (pair_views p.items.items) };
}

impl KeyedPairs {
    /// An empty hash.
    #[tactic(auto, using(crate::proofs::Placing::none_placed))]
    pub fn new(alloc: Global) -> KeyedPairs
        ensures { result ≡ [] }
    {
        KeyedPairs {
            items: Vec::new(alloc),
            numbers: BTreeMap::new(alloc),
            texts: BTreeMap::new(alloc),
        }
    }

    /// With the value of a key set: in the key's place where it has one, and else at the end.
    #[tactic(auto, using(crate::proofs::Placing::pair_set, crate::proofs::Placing::pair_added, crate::proofs::Placing::place_within))]
    pub fn with(self, alloc: Global, key: Value, value: Value) -> Result<KeyedPairs, Memory>
        requires { IsTrue (is_key (view key)) }
        ensures { IfOk result (λ p. p ≡ with_pair (view key) (view value) self) }
    {
        match self.place_of(&key) {
            Some(place) => Ok(with_value(self, place, value)),
            None => with_more(alloc, self, key, value),
        }
    }

    /// Where the pair of a key stands.
    fn place_of(&self, key: &Value) -> Option<usize>
        ensures { result ≡ place_of (view key.now) self.now }
    {
        place_in(&self.numbers, &self.texts, key)
    }

    /// The hash that was put together.
    pub fn into_pairs(self) -> Result<Pairs, Memory>
        ensures { IfOk result (λ ps. ps ≡ self) }
    {
        let KeyedPairs {
            items,
            numbers: _numbers,
            texts: _texts,
        } = self;
        Pairs::from_vec(items)
    }
}

/// With the value of the pair at a place set.
fn with_value(pairs: KeyedPairs, place: usize, value: Value) -> KeyedPairs
    requires { place < length pairs }
    ensures { result ≡ with_value (view value) place pairs }
{
    let KeyedPairs {
        items,
        numbers,
        texts,
    } = pairs;
    let mut items = items;
    set_value(&mut items, place, value);
    KeyedPairs {
        items,
        numbers,
        texts,
    }
}

/// With one pair more behind those that are there, whose key is none of theirs.
fn with_more(
    alloc: Global,
    pairs: KeyedPairs,
    key: Value,
    value: Value,
) -> Result<KeyedPairs, Memory>
    requires key { IsTrue (is_key (view key)) }
    requires new { place_of (view key) pairs ≡ None }
    ensures { IfOk result (λ p. p ≡ pairs ++ (view key, view value) ∷ []) }
{
    let KeyedPairs {
        items,
        numbers,
        texts,
    } = pairs;
    let mut items = items;
    let mut numbers = numbers;
    let mut texts = texts;
    add_place(alloc, &mut numbers, &mut texts, &key, items.len())?;
    items.push((key, value))?;
    Ok(KeyedPairs {
        items,
        numbers,
        texts,
    })
}

fn set_value(items: &mut Vec<(Value, Value)>, place: usize, value: Value)
    requires { place < vec_len items.old }
    ensures { pair_views items.new.items ≡ with_value (view value) place (pair_views items.old.items) }
{
    drop(mem::replace(&mut items[place].1, value));
}

/// The place of a key. A value that is no key has none.
fn place_in(
    numbers: &BTreeMap<i64, usize>,
    texts: &BTreeMap<Text, usize>,
    key: &Value,
) -> Option<usize>
    ensures { result ≡ placed (view key.now) numbers.now texts.now }
{
    match key {
        Value::Int(number) => numbers.get(number).copied(),
        Value::Text(text) => texts.get(text).copied(),
        _ => None,
    }
}

/// Gives a key its place.
fn add_place(
    alloc: Global,
    numbers: &mut BTreeMap<i64, usize>,
    texts: &mut BTreeMap<Text, usize>,
    key: &Value,
    place: usize,
) -> Result<(), Memory>
    ensures { OnOk result ((k : Datum) → placed k numbers.new texts.new
        ≡ (if same_key k (view key.now) then Some place else placed k numbers.old texts.old)) }
{
    match key {
        Value::Int(number) => {
            drop(numbers.insert(*number, place)?);
        }
        Value::Text(text) => {
            drop(texts.insert(text.copy(alloc)?, place)?);
        }
        _ => {}
    }
    Ok(())
}
