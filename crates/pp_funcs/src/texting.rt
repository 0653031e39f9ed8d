//! Functions of texts.
ghost use Rattle.std.specs.Prelude.{◌≡◌, ◌++◌, IfOk, OnOk, string_bytes, codes};
ghost use Rattle.std.specs.Str.{str_to_ascii_uppercase, str_to_ascii_lowercase};
ghost use Rattle.pp_values.specs.TextOf.{text_of};
ghost use Rattle.pp_values.specs.Views.{view, views};
ghost use Rattle.pp_funcs.specs.Texts.{led, joined, failure, upcase, downcase, strip};
ghost use Rattle.pp_funcs.specs.Refusals.{Gives, of_one};

use crate::refusal::{Halt, Refusal};
use crate::stripping::stripped;
use pp_values::{Memory, Text, Value, write_value};
use std::alloc::Global;

pub fn failure(alloc: Global, args: &[Value]) -> Result<Value, Halt>
    ensures { Gives result (failure (views args.now)) }
{
    Err(Halt::Refused(Refusal::Failed(joined(alloc, args)?)))
}

/// The texts of the values, with one space between each two.
pub fn joined(alloc: Global, values: &[Value]) -> Result<Text, Memory>
    ensures { IfOk result (λ t. t ≡ joined (views values.now)) }
{
    let mut out = String::new(alloc);
    match values {
        [] => {}
        [first, rest @ ..] => {
            write_value(&mut out, first)?;
            write_rest(&mut out, rest)?;
        }
    }
    Ok(Text::new(out))
}

fn write_rest(out: &mut String, rest: &[Value]) -> Result<(), Memory>
    ensures { OnOk result (string_bytes out.new ≡ string_bytes out.old ++ led (codes " ") (views rest.now)) }
{
    for value in rest {
        write_separated(out, " ", value)?;
    }
    Ok(())
}

/// Appends a text, and the text of a value.
pub fn write_separated(out: &mut String, between: &str, value: &Value) -> Result<(), Memory>
    ensures { OnOk result (string_bytes out.new ≡ string_bytes out.old ++ (between.now ++ text_of (view value.now))) }
{
    out.push_str(between)?;
    write_value(out, value)
}

pub fn upcase(alloc: Global, args: &[Value]) -> Result<Value, Halt>
    ensures { Gives result (of_one upcase (views args.now)) }
{
    match args {
        [value] => upcase_of(alloc, value),
        _ => Err(Halt::Refused(Refusal::Arguments)),
    }
}

fn upcase_of(alloc: Global, value: &Value) -> Result<Value, Halt>
    ensures { Gives result (upcase (view value.now)) }
{
    match value {
        Value::Text(text) => Ok(Value::Text(upper(alloc, text)?)),
        _ => Err(Halt::Refused(Refusal::Arguments)),
    }
}

pub fn downcase(alloc: Global, args: &[Value]) -> Result<Value, Halt>
    ensures { Gives result (of_one downcase (views args.now)) }
{
    match args {
        [value] => downcase_of(alloc, value),
        _ => Err(Halt::Refused(Refusal::Arguments)),
    }
}

fn downcase_of(alloc: Global, value: &Value) -> Result<Value, Halt>
    ensures { Gives result (downcase (view value.now)) }
{
    match value {
        Value::Text(text) => Ok(Value::Text(lower(alloc, text)?)),
        _ => Err(Halt::Refused(Refusal::Arguments)),
    }
}

pub fn strip(alloc: Global, args: &[Value]) -> Result<Value, Halt>
    ensures { Gives result (of_one strip (views args.now)) }
{
    match args {
        [value] => strip_of(alloc, value),
        _ => Err(Halt::Refused(Refusal::Arguments)),
    }
}

fn strip_of(alloc: Global, value: &Value) -> Result<Value, Halt>
    ensures { Gives result (strip (view value.now)) }
{
    match value {
        Value::Text(text) => Ok(Value::Text(Text::from_str(alloc, stripped(text.as_str()))?)),
        _ => Err(Halt::Refused(Refusal::Arguments)),
    }
}

fn upper(alloc: Global, text: &Text) -> Result<Text, Memory>
    ensures { IfOk result (λ t. t ≡ str_to_ascii_uppercase text.now) }
{
    Ok(Text::new(text.as_str().to_ascii_uppercase(alloc)?))
}

fn lower(alloc: Global, text: &Text) -> Result<Text, Memory>
    ensures { IfOk result (λ t. t ≡ str_to_ascii_lowercase text.now) }
{
    Ok(Text::new(text.as_str().to_ascii_lowercase(alloc)?))
}
