//! Hashes that are put together pair by pair.
ghost use Rattle.std.specs.Prelude.{◌≡◌, [], IfOk, IsTrue};
ghost use Rattle.pp_values.specs.Keys.{is_key, with_pair};
ghost use Rattle.pp_values.specs.Views.{view};

use crate::keyed_pairs::KeyedPairs;
use pp_values::{Memory, Pairs, Value};
use std::alloc::Global;
use std::marker::Model;

/// Up to how many pairs are gone over for each key that is put in. Of more the keys have a table.
const PAIRS_WITHOUT_TABLE: usize = 16;

/// The pairs of a hash that are put in one by one. A contract sees what each key and value says.
pub struct Growing {
    form: GrowingForm,
}

#[derive(Drop)]
pub(crate) enum GrowingForm {
    Few(Pairs),
    Many(KeyedPairs),
}

// By hand, so that letting one go is one step for whoever holds it.
impl Drop for Growing {
    fn drop(self) {
        let Growing { form: _form } = self;
    }
}

impl Model for Growing {
    ghost use Rattle.std.specs.Prelude.{List};
    ghost use Rattle.pp_values.specs.Datum.{Pair};
    ghost use Rattle.pp_values.specs.Codes.{coded_pairs};

    ghost Value = { List Pair };

    ghost coded = { coded_pairs };

    ghost use Rattle.eval_forms.specs.GrowingPairs.{form_pairs};

    ghost view = { λ g. form_pairs g.form };
}

impl Growing {
    /// An empty hash, into which so many pairs come at most.
    pub fn for_count(alloc: Global, count: usize) -> Growing
        ensures { result ≡ [] }
    {
        if count <= PAIRS_WITHOUT_TABLE {
            return few(Pairs::new(alloc));
        }
        many(KeyedPairs::new(alloc))
    }

    /// With the value of a key set: in the key's place where it has one, and else at the end.
    pub fn with(self, alloc: Global, key: Value, value: Value) -> Result<Growing, Memory>
        requires { IsTrue (is_key (view key)) }
        ensures { IfOk result (λ g. g ≡ with_pair (view key) (view value) self) }
    {
        let Growing { form } = self;
        match form {
            GrowingForm::Few(pairs) => Ok(few(with_few(pairs, key, value)?)),
            GrowingForm::Many(pairs) => Ok(many(pairs.with(alloc, key, value)?)),
        }
    }

    /// The hash that was put together.
    pub fn into_pairs(self) -> Result<Pairs, Memory>
        ensures { IfOk result (λ ps. ps ≡ self) }
    {
        let Growing { form } = self;
        match form {
            GrowingForm::Few(pairs) => Ok(pairs),
            GrowingForm::Many(pairs) => pairs.into_pairs(),
        }
    }
}

fn few(pairs: Pairs) -> Growing
    ensures { result ≡ pairs }
{
    Growing {
        form: GrowingForm::Few(pairs),
    }
}

fn many(pairs: KeyedPairs) -> Growing
    ensures { result ≡ pairs }
{
    Growing {
        form: GrowingForm::Many(pairs),
    }
}

fn with_few(pairs: Pairs, key: Value, value: Value) -> Result<Pairs, Memory>
    requires { IsTrue (is_key (view key)) }
    ensures { IfOk result (λ l. l ≡ with_pair (view key) (view value) pairs) }
{
    let mut pairs = pairs;
    pairs.put(key, value)?;
    Ok(pairs)
}
