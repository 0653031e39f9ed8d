ghost use Rattle.std.specs.Prelude.{◌≡◌, IfOk};
ghost use Rattle.pp_values.specs.Views.{view, views};

use pp_values::{Memory, Value, Values, copy};
use std::alloc::Global;
use std::marker::Model;

/// A value that an evaluation gave. Contracts see what it says.
pub struct Evaluated {
    value: Value,
}

// By hand, so that letting one go is one step for whoever holds it.
impl Drop for Evaluated {
    fn drop(self) {
        let Evaluated { value: _value } = self;
    }
}

impl Model for Evaluated {
    ghost use Rattle.pp_values.specs.Codes.{coded_datum};
    ghost use Rattle.pp_values.specs.Datum.{Datum};

    ghost Value = { Datum };

    ghost coded = { coded_datum };

    ghost use Rattle.pp_values.specs.Views.{view as said};

    ghost view = { λ e. said e.value };
}

impl Evaluated {
    /// What an evaluation gave: this value.
    pub fn new(value: Value) -> Evaluated
        ensures { result ≡ view value }
    {
        Evaluated { value }
    }

    /// A value like this one.
    pub fn copy_of(alloc: Global, value: &Value) -> Result<Evaluated, Memory>
        ensures { IfOk result (λ e. e ≡ view value.now) }
    {
        match value {
            Value::Int(number) => Ok(Evaluated::new(Value::Int(*number))),
            Value::List(items) => Ok(Evaluated::new(Value::List(copy_members(
                alloc,
                items.as_slice(),
            )?))),
            _ => Ok(Evaluated::new(copy(alloc, value)?)),
        }
    }

    /// The value, lent.
    pub fn as_value(&self) -> &Value
        ensures { view result.now ≡ self.now }
    {
        &self.value
    }

    /// The value, handed on without a copy.
    pub fn into_value(self) -> Value
        ensures { view result ≡ self }
    {
        let Evaluated { value } = self;
        value
    }
}

/// A list of the same values, whose memory is taken once.
fn copy_members(alloc: Global, values: &[Value]) -> Result<Values, Memory>
    ensures { IfOk result (λ l. l ≡ views values.now) }
{
    let mut items = Vec::with_capacity(alloc, values.len())?;
    for value in values {
        items.push(copied_member(alloc, value)?)?;
    }
    Values::from_vec(items)
}

fn copied_member(alloc: Global, value: &Value) -> Result<Value, Memory>
    ensures { IfOk result (λ v. view v ≡ view value.now) }
{
    match value {
        Value::Int(number) => Ok(Value::Int(*number)),
        _ => copy(alloc, value),
    }
}
