//! The pairs of a hash by key, so that a key is found without going over all.
ghost use Rattle.std.specs.Prelude.{◌≡◌, Some, IfOk, OnOk, if◌then◌else◌, option_map};
ghost use Rattle.pp_values.specs.Datum.{Datum};
ghost use Rattle.pp_values.specs.Keys.{same_key, value_at};
ghost use Rattle.pp_values.specs.Views.{view, pair_views};
ghost use Rattle.pp_ops.specs.Indexes.{indexed, told};

use pp_values::{Memory, Pairs, Text, Value};
use std::alloc::Global;
use std::collections::BTreeMap;

/// Up to how many pairs are gone over for each key that is asked for.
const PAIRS_WITHOUT_INDEX: usize = 8;

/// The values of a hash by key.
#[derive(Drop)]
pub enum Keyed<'a> {
    Few(&'a Pairs),
    Many(KeyIndex<'a>),
}

/// Values by their keys, numbers and texts apart.
#[derive(Drop)]
pub struct KeyIndex<'a> {
    pub numbers: BTreeMap<i64, &'a Value>,
    pub texts: BTreeMap<Text, &'a Value>,
}

impl<'a> Keyed<'a> {
    /// The values of this hash, to be asked for so many keys.
    pub fn new(alloc: Global, pairs: &'a Pairs, count: usize) -> Result<Keyed<'a>, Memory>
        ensures { IfOk result (λ t. (k : Datum) → told t k ≡ value_at k pairs.now) }
    {
        if pairs.len() <= PAIRS_WITHOUT_INDEX || count <= PAIRS_WITHOUT_INDEX {
            return Ok(Keyed::Few(pairs));
        }
        Ok(Keyed::Many(KeyIndex::of_pairs(alloc, pairs.as_slice())?))
    }

    pub fn get(&self, key: &Value) -> Option<&Value>
        ensures { option_map (λ v. view v.now) result ≡ told self.now (view key.now) }
    {
        match self {
            Keyed::Few(pairs) => pairs.get(key),
            Keyed::Many(index) => index.get(key),
        }
    }
}

impl<'a> KeyIndex<'a> {
    /// From the last pair to the first, so that of two with the same key the first would stay.
    fn of_pairs(alloc: Global, pairs: &'a [(Value, Value)]) -> Result<KeyIndex<'a>, Memory>
        ensures { IfOk result (λ x. (k : Datum) → indexed k x.numbers x.texts ≡ value_at k (pair_views pairs.now)) }
    {
        let mut numbers = BTreeMap::new(alloc);
        let mut texts = BTreeMap::new(alloc);
        let mut at = pairs.len();
        while at > 0 {
            at -= 1;
            let (key, value) = &pairs[at];
            add(alloc, &mut numbers, &mut texts, key, value)?;
        }
        Ok(KeyIndex { numbers, texts })
    }

    fn get(&self, key: &Value) -> Option<&Value>
        ensures { option_map (λ v. view v.now) result ≡ indexed (view key.now) self.now.numbers self.now.texts }
    {
        match key {
            Value::Int(number) => self.numbers.get(number).copied(),
            Value::Text(text) => self.texts.get(text).copied(),
            _ => None,
        }
    }
}

fn add<'a>(
    alloc: Global,
    numbers: &mut BTreeMap<i64, &'a Value>,
    texts: &mut BTreeMap<Text, &'a Value>,
    key: &Value,
    value: &'a Value,
) -> Result<(), Memory>
    ensures { OnOk result ((k : Datum) → indexed k numbers.new texts.new
        ≡ (if same_key k (view key.now) then Some (view value.now) else indexed k numbers.old texts.old)) }
{
    match key {
        Value::Int(number) => {
            drop(numbers.insert(*number, value)?);
        }
        Value::Text(text) => {
            drop(texts.insert(text.copy(alloc)?, value)?);
        }
        _ => {}
    }
    Ok(())
}
