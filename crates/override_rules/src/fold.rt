//! The value of an attribute after the lines on its resource. It is made anew for each question and never kept.
ghost use Rattle.std.specs.Prelude.{◌≡◌, IfOk, option_map, option_to_list, slice_get};
ghost use Rattle.pp_values.specs.Views.{view};
ghost use Rattle.override_rules.specs.Lines.{line_of};
ghost use Rattle.override_rules.specs.Numbers.{lines_at};
ghost use Rattle.override_rules.specs.Fold.{declared, after_line as after_line_meant, after_lines as after_lines_meant};
ghost use Rattle.override_rules.specs.Fold.{overridden as overridden_meant};

use crate::changing::{changed, set_to};
use crate::lines::Lines;
use crate::override_line::OverrideLine;
use pp_values::{Memory, Text, Value};
use res_core::Declared;
use std::alloc::Global;

/// What the declaration and the lines on it make of the attribute.
pub fn overridden(
    alloc: Global,
    lines: &Lines,
    item: &Declared,
    name: &Text,
) -> Result<Option<Value>, Memory>
    ensures { IfOk result (λ o. option_map view o ≡ overridden_meant lines.now item.now name.now) }
{
    let value = declared(alloc, item, name)?;
    let numbers = lines.on(&item.item.kind, &item.item.title);
    after_lines(alloc, lines, numbers, name, value)
}

/// What the declaration sets.
fn declared(alloc: Global, item: &Declared, name: &Text) -> Result<Option<Value>, Memory>
    ensures { IfOk result (λ o. option_map view o ≡ declared item.now name.now) }
{
    match item.item.attributes.get(name) {
        Some(value) => set_to(alloc, value),
        None => Ok(None),
    }
}

fn after_lines(
    alloc: Global,
    lines: &Lines,
    numbers: &[usize],
    name: &Text,
    start: Option<Value>,
) -> Result<Option<Value>, Memory>
    ensures { IfOk result (λ o. option_map view o
        ≡ after_lines_meant name.now (lines_at lines.now numbers.now) (option_map view start)) }
{
    let mut value = start;
    for number in numbers {
        value = after_number(alloc, lines, *number, name, value)?;
    }
    Ok(value)
}

fn after_number(
    alloc: Global,
    lines: &Lines,
    number: usize,
    name: &Text,
    value: Option<Value>,
) -> Result<Option<Value>, Memory>
    ensures { IfOk result (λ o. option_map view o
        ≡ after_lines_meant name.now (option_to_list (slice_get lines.now number)) (option_map view value)) }
{
    match lines.get(number) {
        Some(line) => after_line(alloc, line, name, value),
        None => Ok(value),
    }
}

fn after_line(
    alloc: Global,
    line: &OverrideLine,
    name: &Text,
    value: Option<Value>,
) -> Result<Option<Value>, Memory>
    ensures { IfOk result (λ o. option_map view o
        ≡ after_line_meant name.now (line_of line.now) (option_map view value)) }
{
    if line.name == *name {
        return changed(alloc, line.append, &line.value, value);
    }
    Ok(value)
}
