//! Values as JSON that is written at once, in the forms of `json_values::value_form`.
ghost use Rattle.std.specs.Prelude.{◌≡◌, ◌++◌, OnOk};
ghost use Rattle.serde_json.specs.Data.{array, object};
ghost use Rattle.pp_values.specs.Datum.{data_of, entries_of};
ghost use Rattle.pp_values.specs.Views.{view, views, pair_views};
ghost use Rattle.pp_values.specs.Rising.{precedes as comes_before};
ghost use Rattle.json_values.specs.ValueForm.{is_plain_name as plain_name, first_key, is_plain as plain, reference_form, long_form, form, list_form, pair_forms, member_forms};
ghost use Rattle.json_documents.specs.Tokens.{data_tokens, long_begins};

use crate::json_output::JsonOutput;
use pp_values::{Reference, Text, Value};
use std::alloc::AllocError;

/// Writes the value. A data type and `default` have no form, and give `null`.
#[cycle(value)]
pub fn write_value(out: &mut JsonOutput, value: &Value) -> Result<(), AllocError>
    ensures { OnOk result (out.new ≡ out.old ++ data_tokens (form (view value.now))) }
{
    match value {
        Value::Undef => out.null(),
        Value::Flag(flag) => out.boolean(*flag),
        Value::Int(number) => out.integer(*number),
        Value::Text(text) => out.string(text.as_str()),
        Value::List(items) => write_list(out, items.as_slice()),
        Value::Hash(pairs) => {
            let pairs = pairs.as_slice();
            if is_plain(pairs) {
                write_members(out, pairs)
            } else {
                write_pairs(out, pairs)
            }
        }
        Value::Ref(reference) => write_reference(out, reference.get()),
        Value::Kind(_) => out.null(),
        Value::Default => out.null(),
    }
}

fn write_reference(out: &mut JsonOutput, reference: &Reference) -> Result<(), AllocError>
    ensures { OnOk result (out.new ≡ out.old ++ data_tokens (reference_form reference.now.kind reference.now.title)) }
{
    out.begin_object()?;
    out.key("__ptype")?;
    out.string("Ref")?;
    out.key("kind")?;
    out.string(reference.kind.as_str())?;
    out.key("title")?;
    out.string(reference.title.as_str())?;
    out.end_object()?;
    Ok(())
}

#[cycle(value)]
fn write_list(out: &mut JsonOutput, items: &[Value]) -> Result<(), AllocError>
    ensures { OnOk result (out.new ≡ out.old ++ data_tokens (array (list_form (data_of (views items.now))))) }
{
    out.begin_array()?;
    for item in items {
        write_value(out, item)?;
    }
    out.end_array()?;
    Ok(())
}

/// A hash whose keys are names in order: the pairs up to the first key that is no text.
#[cycle(value)]
fn write_members(out: &mut JsonOutput, pairs: &[(Value, Value)]) -> Result<(), AllocError>
    ensures { OnOk result (out.new ≡ out.old ++ data_tokens (object (member_forms (entries_of (pair_views pairs.now))))) }
{
    out.begin_object()?;
    for (key, value) in pairs {
        let Value::Text(name) = key else {
            out.end_object()?;
            return Ok(());
        };
        out.key(name.as_str())?;
        write_value(out, value)?;
    }
    out.end_object()?;
    Ok(())
}

/// Any other hash: each key and its value in turn.
#[cycle(value)]
fn write_pairs(out: &mut JsonOutput, pairs: &[(Value, Value)]) -> Result<(), AllocError>
    ensures { OnOk result (out.new ≡ out.old ++ data_tokens (long_form (array (pair_forms (entries_of (pair_views pairs.now)))))) }
{
    begin_long(out)?;
    for (key, value) in pairs {
        write_value(out, key)?;
        write_value(out, value)?;
    }
    out.end_array()?;
    out.end_object()?;
    Ok(())
}

fn begin_long(out: &mut JsonOutput) -> Result<(), AllocError>
    ensures { OnOk result (out.new ≡ out.old ++ long_begins) }
{
    out.begin_object()?;
    out.key("__ptype")?;
    out.string("Hash")?;
    out.key("__pvalue")?;
    out.begin_array()?;
    Ok(())
}

/// Whether the keys are texts, none begins with `__p`, and each is below the next.
fn is_plain(pairs: &[(Value, Value)]) -> bool
    ensures { result ≡ plain (entries_of (pair_views pairs.now)) }
{
    let mut left = pairs;
    while let [(key, _), after @ ..] = left {
        let Value::Text(name) = key else {
            return false;
        };
        if !is_plain_name(name.as_str()) || !precedes(name, after) {
            return false;
        }
        left = after;
    }
    true
}

fn is_plain_name(name: &str) -> bool
    ensures { result ≡ plain_name name.now }
{
    !name.starts_with("__p")
}

fn precedes(name: &Text, pairs: &[(Value, Value)]) -> bool
    ensures { result ≡ comes_before name.now (first_key (entries_of (pair_views pairs.now))) }
{
    match pairs {
        [(Value::Text(next), _), ..] => name.compare(next).is_lt(),
        _ => true,
    }
}
