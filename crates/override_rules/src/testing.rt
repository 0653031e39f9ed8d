//! The tests of lines on a declaration.
ghost use Rattle.std.specs.Prelude.{◌≡◌, ◌<◌, [], length, option_to_list, slice_get, slice_index, take};
ghost use Rattle.pp_values.specs.Answers.{Answers};
ghost use Rattle.pp_values.specs.Settings.{Setting};
ghost use Rattle.pp_values.specs.Views.{view};
ghost use Rattle.res_book.specs.Rows.{reference_of};
ghost use Rattle.override_rules.specs.Fold.{declared};
ghost use Rattle.override_rules.specs.Lines.{line_of, lines_on};
ghost use Rattle.override_rules.specs.Numbers.{lines_at};
ghost use Rattle.override_rules.specs.Rights.{is_set, is_set_by as is_set_by_meant, line_test as line_test_meant};
ghost use Rattle.override_rules.specs.Rights.{line_tests};
ghost use Rattle.override_rules.specs.SetLines.{is_value as is_value_meant, set_after as set_after_meant};
ghost use Rattle.override_rules.specs.SetLines.{set_after_lines as set_after_lines_meant};

use crate::faults::{already_set, unknown};
use crate::lines::Lines;
use crate::override_line::OverrideLine;
use crate::rights::may;
use pp_values::{Stop, Text, Value};
use res_core::{Declared, is_known};
use std::alloc::Global;

/// The test of a line on a declaration, which is evaluated or not and has the attribute set or not.
pub fn line_test(
    alloc: Global,
    item: &Declared,
    evaluated: bool,
    set: bool,
    line: &OverrideLine,
) -> Result<(), Stop>
    ensures { Answers result (line_test_meant item.now evaluated set (line_of line.now)) }
{
    if item.item.kind.is("class") {
        return Ok(());
    }
    if !is_known(&item.known, &line.name) {
        return Err(Stop::Fault(unknown(alloc, item, line)?));
    }
    if evaluated || !may(&line.right, &item.class, set) {
        return Err(Stop::Fault(already_set(alloc, item, line)?));
    }
    Ok(())
}

/// The first fault of the lines on a declaration, each of which is tested after those before it.
pub fn test_all(alloc: Global, lines: &Lines, item: &Declared, evaluated: bool) -> Result<(), Stop>
    ensures { Answers result (line_tests item.now evaluated [] (lines_on (reference_of item.now) lines.now)) }
{
    test_numbers(
        alloc,
        lines,
        lines.on(&item.item.kind, &item.item.title),
        item,
        evaluated,
    )
}

fn test_numbers(
    alloc: Global,
    lines: &Lines,
    numbers: &[usize],
    item: &Declared,
    evaluated: bool,
) -> Result<(), Stop>
    ensures { Answers result (line_tests item.now evaluated [] (lines_at lines.now numbers.now)) }
{
    for at in 0..numbers.len() {
        test_number(alloc, lines, &numbers[..at], numbers[at], item, evaluated)?;
    }
    Ok(())
}

/// The test of one line after those of these numbers.
fn test_number(
    alloc: Global,
    lines: &Lines,
    done: &[usize],
    number: usize,
    item: &Declared,
    evaluated: bool,
) -> Result<(), Stop>
    ensures { Answers result
        (line_tests item.now evaluated (lines_at lines.now done.now) (option_to_list (slice_get lines.now number))) }
{
    match lines.get(number) {
        Some(line) => {
            let set = is_set_by(lines, done, item, &line.name);
            line_test(alloc, item, evaluated, set, line)
        }
        None => Ok(()),
    }
}

/// Whether the attribute is set by the declaration or by the lines of these numbers.
pub fn is_set_by(lines: &Lines, numbers: &[usize], item: &Declared, name: &Text) -> bool
    ensures { result ≡ is_set_by_meant item.now (lines_at lines.now numbers.now) name.now }
{
    let set = is_declared(item, name);
    set_after_lines(lines, numbers, name, set)
}

fn is_declared(item: &Declared, name: &Text) -> bool
    ensures { result ≡ is_set (declared item.now name.now) }
{
    match item.item.attributes.get(name) {
        Some(value) => is_value(value),
        None => false,
    }
}

fn set_after_lines(lines: &Lines, numbers: &[usize], name: &Text, start: bool) -> bool
    ensures { result ≡ set_after_lines_meant name.now (lines_at lines.now numbers.now) start }
{
    let mut set = start;
    for number in numbers {
        set = set_after_number(lines, *number, name, set);
    }
    set
}

fn set_after_number(lines: &Lines, number: usize, name: &Text, set: bool) -> bool
    ensures { result ≡ set_after_lines_meant name.now (option_to_list (slice_get lines.now number)) set }
{
    match lines.get(number) {
        Some(line) => set_after(line, name, set),
        None => set,
    }
}

fn set_after(line: &OverrideLine, name: &Text, set: bool) -> bool
    ensures { result ≡ set_after_meant name.now (line_of line.now) set }
{
    if line.name != *name {
        return set;
    }
    if line.append && set {
        return true;
    }
    is_value(&line.value)
}

/// Whether a value sets an attribute, which Undef does not.
pub fn is_value(value: &Value) -> bool
    ensures { result ≡ is_value_meant (view value.now) }
{
    match value {
        Value::Undef => false,
        _ => true,
    }
}
