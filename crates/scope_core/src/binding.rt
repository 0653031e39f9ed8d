ghost use Rattle.std.specs.Prelude.{◌≡◌};
ghost use Rattle.pp_values.specs.Views.{view};

use pp_values::Value;
use std::marker::Model;

/// A value that contracts see as what it says, and that is dropped in one step.
#[derive(Drop)]
pub struct Binding {
    value: Value,
}

impl Model for Binding {
    ghost use Rattle.pp_values.specs.Codes.{coded_datum};
    ghost use Rattle.pp_values.specs.Datum.{Datum};

    ghost Value = { Datum };

    ghost coded = { coded_datum };

    ghost use Rattle.pp_values.specs.Views.{view as said};

    ghost view = { λ b. said b.value };
}

impl Binding {
    pub fn new(value: Value) -> Binding
        ensures { result ≡ view value }
    {
        Binding { value }
    }

    pub fn as_value(&self) -> &Value
        ensures { view result.now ≡ self.now }
    {
        &self.value
    }
}
