//! How much a text, a list or a hash holds.
ghost use Rattle.std.specs.Prelude.{◌≡◌};
ghost use Rattle.std.specs.Fmt.{is_char_start};
ghost use Rattle.pp_values.specs.Views.{view, views};
ghost use Rattle.pp_funcs.specs.Counts.{characters, count, is_empty};
ghost use Rattle.pp_funcs.specs.Numbers.{natural};
ghost use Rattle.pp_funcs.specs.Refusals.{Gives, of_one};

use crate::numbers::natural;
use crate::refusal::{Halt, Refusal};
use pp_values::Value;

pub fn count(args: &[Value]) -> Result<Value, Halt>
    ensures { Gives result (of_one count (views args.now)) }
{
    match args {
        [value] => count_of(value),
        _ => Err(Halt::Refused(Refusal::Arguments)),
    }
}

fn count_of(value: &Value) -> Result<Value, Halt>
    ensures { Gives result (count (view value.now)) }
{
    match value {
        Value::Text(text) => natural(characters(text.as_str()) as u64),
        Value::List(items) => natural(items.len() as u64),
        Value::Hash(pairs) => natural(pairs.len() as u64),
        _ => Err(Halt::Refused(Refusal::Arguments)),
    }
}

pub fn is_empty(args: &[Value]) -> Result<Value, Halt>
    ensures { Gives result (of_one is_empty (views args.now)) }
{
    match args {
        [value] => is_empty_value(value),
        _ => Err(Halt::Refused(Refusal::Arguments)),
    }
}

fn is_empty_value(value: &Value) -> Result<Value, Halt>
    ensures { Gives result (is_empty (view value.now)) }
{
    match value {
        Value::Undef => Ok(Value::Flag(true)),
        Value::Text(text) => Ok(Value::Flag(text.as_str().is_empty())),
        Value::List(items) => Ok(Value::Flag(items.len() == 0)),
        Value::Hash(pairs) => Ok(Value::Flag(pairs.len() == 0)),
        _ => Err(Halt::Refused(Refusal::Arguments)),
    }
}

/// A text of ASCII alone has a character for each byte.
#[tactic(auto, using(crate::proofs::Ascii::ascii_characters))]
fn characters(text: &str) -> usize
    ensures { result ≡ characters text.now }
{
    if text.is_ascii() {
        return text.len();
    }
    first_bytes(text.as_bytes())
}

fn first_bytes(text: &[u8]) -> usize
    ensures { result ≡ characters text.now }
{
    let mut count = 0;
    for byte in text {
        if is_first(*byte) {
            count += 1;
        }
    }
    count
}

/// Whether the byte is the first one of a character.
fn is_first(byte: u8) -> bool
    ensures { result ≡ is_char_start byte }
{
    byte < 0x80 || byte >= 0xC0
}
