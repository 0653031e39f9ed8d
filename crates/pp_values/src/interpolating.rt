//! The text of a value where it is interpolated.
ghost use Rattle.std.specs.Prelude.{◌≡◌, ◌++◌, IfOk, OnOk, string_bytes};
ghost use Rattle.std.specs.Fmt.{signed_decimal};
ghost use Rattle.pp_values.specs.Datum.{data_of, entries_of};
ghost use Rattle.pp_values.specs.TextOf.{text_of, members_text, entries_text};
ghost use Rattle.pp_values.specs.Views.{view, views, pair_views};

use crate::memory::Memory;
use crate::printing::{write_before, write_quoted_reference};
use crate::text::Text;
use crate::type_printing::write_type;
use crate::value::Value;
use std::alloc::Global;

/// The text of a value where it is interpolated.
///
/// See "String interpolation" in Puppet's language reference.
pub fn text_of(alloc: Global, value: &Value) -> Result<Text, Memory>
    ensures { IfOk result (λ t. t ≡ text_of (view value.now)) }
{
    let mut out = String::new(alloc);
    write_value(&mut out, value)?;
    Ok(Text::new(out))
}

/// Appends the text of a value where it is interpolated.
#[cycle(write_value)]
pub fn write_value(out: &mut String, value: &Value) -> Result<(), Memory>
    ensures { OnOk result (string_bytes out.new ≡ string_bytes out.old ++ text_of (view value.now)) }
{
    match value {
        Value::Undef => Ok(()),
        Value::Flag(flag) => write_text(out, if *flag { "true" } else { "false" }),
        Value::Int(number) => write_number(out, *number),
        Value::Text(text) => write_text(out, text.as_str()),
        Value::List(items) => {
            write_text(out, "[")?;
            write_items(out, items.as_slice())?;
            write_text(out, "]")
        }
        Value::Hash(pairs) => {
            write_text(out, "{")?;
            write_pairs(out, pairs.as_slice())?;
            write_text(out, "}")
        }
        Value::Ref(reference) => write_quoted_reference(out, reference.get()),
        Value::Kind(ptype) => write_type(out, ptype.as_type()),
        Value::Default => write_text(out, "default"),
    }
}

fn write_text(out: &mut String, text: &str) -> Result<(), Memory>
    ensures { OnOk result (string_bytes out.new ≡ string_bytes out.old ++ text.now) }
{
    out.push_str(text)?;
    Ok(())
}

fn write_number(out: &mut String, number: i64) -> Result<(), Memory>
    ensures { OnOk result (string_bytes out.new ≡ string_bytes out.old ++ signed_decimal number) }
{
    write!(out, "{number}")?;
    Ok(())
}

#[cycle(write_value)]
fn write_items(out: &mut String, items: &[Value]) -> Result<(), Memory>
    ensures { OnOk result (string_bytes out.new ≡ string_bytes out.old ++ members_text 0 (data_of (views items.now))) }
{
    for (i, item) in items.iter().enumerate() {
        write_before(out, i)?;
        write_value(out, item)?;
    }
    Ok(())
}

#[cycle(write_value)]
fn write_pairs(out: &mut String, pairs: &[(Value, Value)]) -> Result<(), Memory>
    ensures { OnOk result (string_bytes out.new ≡ string_bytes out.old ++ entries_text 0 (entries_of (pair_views pairs.now))) }
{
    for (i, (key, value)) in pairs.iter().enumerate() {
        write_before(out, i)?;
        write_value(out, key)?;
        write_text(out, " => ")?;
        write_value(out, value)?;
    }
    Ok(())
}
