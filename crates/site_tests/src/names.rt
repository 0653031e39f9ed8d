//! Variables and operands that no manifest has: a name with a capital letter, `trusted` before the evaluator has set it, and
//! an index that stands in no list.
use expr_eval::{combine, type_value};
use pp_ops::Op;
use pp_types::is_type_name;
use pp_values::{Memory, Place, Stop, Text, Value, What};
use scope_core::{ScopeId, ScopeKind, Scopes};
use std::alloc::Global;
use std::test::Fail;

fn place(alloc: Global) -> Result<Place, Memory> {
    let file = Text::from_str(alloc, "site.pp")?;
    Ok(Place { file, line: 3 })
}

fn is_unknown(stop: &Stop, name: &Text) -> bool {
    match stop {
        Stop::Fault(fault) =>
            matches!(fault.what.get(), What::UnknownVariable(other) if other == name),
        Stop::Memory => false,
    }
}

fn has_no_variable(alloc: Global) -> Result<bool, Stop> {
    let scopes = Scopes::new(alloc)?;
    let name = Text::from_str(alloc, "X")?;
    match scopes.read(alloc, ScopeId::TOP, &name, &place(alloc)?) {
        Ok(_value) => Ok(false),
        Err(stop) => Ok(is_unknown(&stop, &name)),
    }
}

fn sets_trusted(alloc: Global) -> Result<bool, Stop> {
    let mut scopes = Scopes::new(alloc)?;
    let name = Text::from_str(alloc, "trusted")?;
    let inner = scopes.enter(alloc, ScopeKind::Lambda, ScopeId::TOP)?;
    scopes.assign(alloc, inner, &name, Value::Int(9), &place(alloc)?)?;
    Ok(matches!(
        scopes.read(alloc, inner, &name, &place(alloc)?),
        Ok(Value::Int(9))
    ))
}

fn is_no_index(stop: &Stop) -> bool {
    match stop {
        Stop::Fault(fault) => {
            matches!(fault.what.get(), What::BadOperand(operator) if operator.is("[]"))
        }
        Stop::Memory => false,
    }
}

/// `Class` with an index that stands in no list.
fn refuses_index(alloc: Global) -> Result<bool, Stop> {
    let at = place(alloc)?;
    let name = Text::from_str(alloc, "Class")?;
    if !is_type_name(name.as_str()) {
        return Ok(false);
    }
    let class = type_value(alloc, &name, &at)?;
    match combine(alloc, Op::Access, &class, &Value::Int(1), &at) {
        Ok(_value) => Ok(false),
        Err(stop) => Ok(is_no_index(&stop)),
    }
}

fn holds(outcome: Result<bool, Stop>) -> bool {
    match outcome {
        Ok(holds) => holds,
        Err(_stop) => false,
    }
}

#[test]
fn names_and_operands(rt: HostRuntime) -> Result<(), Fail> {
    assert!(rt; holds(has_no_variable(rt.alloc())), "X");
    assert!(rt; holds(sets_trusted(rt.alloc())), "trusted");
    assert!(rt; holds(refuses_index(rt.alloc())), "Class");
    Ok(())
}
