//! Where keys stand in a list of pairs, found without going over it.
ghost use Rattle.std.specs.Prelude.{◌≡◌, [], OnOk, Some, if◌then◌else◌};
ghost use Rattle.pp_values.specs.Datum.{Datum};
ghost use Rattle.pp_values.specs.Keys.{same_key};
ghost use Rattle.pp_values.specs.Views.{view};
ghost use Rattle.hiera_merge.specs.KeyPlaces.{placed, ArePlaced};

use pp_values::{Memory, Text, Value};
use std::alloc::Global;
use std::collections::BTreeMap;

/// The places of keys.
pub struct KeyPlaces {
    /// Where a number stands as a key.
    pub numbers: BTreeMap<i64, usize>,
    /// Where a text stands as a key.
    pub texts: BTreeMap<Text, usize>,
}

// By hand, so that callers drop it by one call.
impl Drop for KeyPlaces {
    fn drop(self) {
        let KeyPlaces {
            numbers: _numbers,
            texts: _texts,
        } = self;
    }
}

impl KeyPlaces {
    #[tactic(auto, using(crate::proofs::Placing::none_placed))]
    pub fn new(alloc: Global) -> KeyPlaces
        ensures { ArePlaced result [] }
    {
        KeyPlaces {
            numbers: BTreeMap::new(alloc),
            texts: BTreeMap::new(alloc),
        }
    }

    /// The place of a key. A value that is no key has none.
    pub fn get(&self, key: &Value) -> Option<usize>
        ensures { result ≡ placed (view key.now) self.now }
    {
        match key {
            Value::Int(number) => self.numbers.get(number).copied(),
            Value::Text(text) => self.texts.get(text).copied(),
            _ => None,
        }
    }

    /// Gives a key its place.
    pub fn set(&mut self, alloc: Global, key: &Value, place: usize) -> Result<(), Memory>
        ensures { OnOk result ((k : Datum) → placed k self.new
            ≡ (if same_key k (view key.now) then Some place else placed k self.old)) }
    {
        match key {
            Value::Int(number) => {
                drop(self.numbers.insert(*number, place)?);
            }
            Value::Text(text) => {
                drop(self.texts.insert(text.copy(alloc)?, place)?);
            }
            _ => {}
        }
        Ok(())
    }
}
