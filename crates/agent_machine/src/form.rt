ghost use Rattle.std.specs.Prelude.{◌≡◌, IfOk};
ghost use Rattle.pp_values.specs.Datum.{text};
ghost use Rattle.pp_values.specs.Views.{view};
ghost use Rattle.pp_ops.specs.Same.{same};
ghost use Rattle.agent_machine.specs.Forms.{form_of};

use pp_ops::is_same;
use pp_values::{Memory, Text, Value, copy};
use std::alloc::Global;

/// A value that stands somewhere, or a word that stands for one.
#[derive(Clone, Copy)]
pub enum Form<'a> {
    Word(&'a str),
    Given(&'a Value),
}

/// Whether the value is that text.
pub fn is_word(value: &Value, word: &str) -> bool
    ensures { result ≡ same (view value.now) (text word.now) }
{
    match value {
        Value::Text(text) => text.is(word),
        _ => false,
    }
}

/// Whether the text is that value.
fn word_is(word: &str, value: &Value) -> bool
    ensures { result ≡ same (text word.now) (view value.now) }
{
    match value {
        Value::Text(text) => word == text.as_str(),
        _ => false,
    }
}

impl<'a> Form<'a> {
    pub fn is_word(self, word: &str) -> bool
        ensures { result ≡ same (form_of self.entry) (text word.now) }
    {
        match self {
            Form::Word(own) => own == word,
            Form::Given(value) => is_word(value, word),
        }
    }

    pub fn is_same(self, other: Form<'_>) -> bool
        ensures { result ≡ same (form_of self.entry) (form_of other.entry) }
    {
        match other {
            Form::Word(word) => self.is_word(word),
            Form::Given(value) => self.is_value(value),
        }
    }

    fn is_value(self, value: &Value) -> bool
        ensures { result ≡ same (form_of self.entry) (view value.now) }
    {
        match self {
            Form::Word(word) => word_is(word, value),
            Form::Given(own) => is_same(own, value),
        }
    }

    pub fn to_value(self, alloc: Global) -> Result<Value, Memory>
        ensures { IfOk result (λ v. view v ≡ form_of self.entry) }
    {
        match self {
            Form::Word(word) => Ok(Value::Text(Text::from_str(alloc, word)?)),
            Form::Given(value) => copy(alloc, value),
        }
    }
}
