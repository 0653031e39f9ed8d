ghost use Rattle.std.specs.Prelude.{◌≡◌, ◌++◌, [], OnOk};
ghost use Rattle.pp_values.specs.TextOf.{text_of};
ghost use Rattle.pp_values.specs.Views.{view};

use pp_values::{Memory, Text, Value, write_value};
use std::alloc::Global;
use std::marker::Model;

/// What a template has emitted so far. Contracts see the text.
pub struct Rendered {
    text: String,
}

// By hand, so that letting one go is one step for whoever holds it.
impl Drop for Rendered {
    fn drop(self) {
        let Rendered { text: _text } = self;
    }
}

impl Model for Rendered {
    ghost use Rattle.std.specs.Prelude.{ℕ, List, string_bytes};
    ghost use Rattle.pp_values.specs.Codes.{coded_text};

    ghost Value = { List ℕ };

    ghost coded = { coded_text };

    ghost view = { λ r. string_bytes r.text };
}

impl Rendered {
    pub fn new(alloc: Global) -> Rendered
        ensures { result ≡ [] }
    {
        Rendered {
            text: String::new(alloc),
        }
    }

    /// Puts a text behind what is there.
    pub fn push(&mut self, text: &str) -> Result<(), Memory>
        ensures { OnOk result (self.new ≡ self.old ++ text.now) }
    {
        self.text.push_str(text)?;
        Ok(())
    }

    /// Puts the text of a value behind what is there.
    pub fn push_value(&mut self, value: &Value) -> Result<(), Memory>
        ensures { OnOk result (self.new ≡ self.old ++ text_of (view value.now)) }
    {
        write_value(&mut self.text, value)
    }

    pub fn into_text(self) -> Text
        ensures { result ≡ self }
    {
        let Rendered { text } = self;
        Text::new(text)
    }
}
