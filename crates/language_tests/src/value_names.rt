//! Names that no text of the grammar has where these calls read them.
use pp_funcs::{call_pure, needs_evaluator};
use pp_values::{Memory, Place, Stop, Text, Values, What, kind_text};
use sample_values::kind;
use std::alloc::Global;
use std::test::Fail;

fn prints_kind(alloc: Global) -> Result<bool, Memory> {
    let kind = kind(alloc, "_a::b1")?;
    Ok(kind_text(alloc, &kind)?.is("_a::B1"))
}

fn is_unknown(stop: &Stop, name: &Text) -> bool {
    match stop {
        Stop::Fault(fault) =>
            matches!(fault.what.get(), What::UnknownFunction(other) if other == name),
        Stop::Memory => false,
    }
}

/// A function with a capital letter is none, and the evaluator has no part in it.
fn has_no_function(alloc: Global) -> Result<bool, Memory> {
    let name = Text::from_str(alloc, "Size")?;
    let file = Text::from_str(alloc, "a.pp")?;
    let at = Place { file, line: 1 };
    if needs_evaluator(&name) {
        return Ok(false);
    }
    match call_pure(alloc, &name, &Values::new(alloc), &at) {
        Ok(_value) => Ok(false),
        Err(stop) => Ok(is_unknown(&stop, &name)),
    }
}

#[test]
fn a_kind_that_begins_with_a_low_line(rt: HostRuntime) -> Result<(), Fail> {
    assert!(rt; prints_kind(rt.alloc())?);
    Ok(())
}

#[test]
fn a_function_with_a_capital_letter(rt: HostRuntime) -> Result<(), Fail> {
    assert!(rt; has_no_function(rt.alloc())?);
    Ok(())
}
