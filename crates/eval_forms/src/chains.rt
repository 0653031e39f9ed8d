//! Chains of operators between values.
ghost use Rattle.std.specs.Prelude.{◌≡◌, is_some, IfSome};
ghost use Rattle.pp_values.specs.Views.{view};
ghost use Rattle.eval_forms.specs.Known.{is_over_known};
ghost use Rattle.eval_forms.specs.Operators as spec;
ghost use Rattle.eval_world.specs.Nests.{Nests};
ghost use Rattle.eval_world.specs.Outcomes.{Gives, same};

use crate::answering::{combined, is_of_type};
use crate::operator_kind::OperatorKind;
use crate::prefixes::truth;
use eval_world::{Evaluated, Forms, Goal, Here, Meaning, World, only};
use expr_eval::is_true;
use pp_ops::Op;
use pp_tree::{Expr, Operation};
use pp_values::{Items, Stop, Value};

/// `$a + 1 - $b`: operators of one strength, from the left. All faults of operators stand at the line of the chain's
/// first token.
#[tactic(auto, unfolding(crate::specs::Operators::binary_rule))]
pub fn binary<F: Fn(&mut World<'_>, Goal<'_>, Here, u32) -> Result<Evaluated, Stop>, M: Meaning>(
    forms: &Forms<F, M>,
    world: &mut World<'_>,
    first: &Expr,
    operations: &Items<Operation>,
    line: u32,
    here: Here,
) -> Result<Evaluated, Stop>
    requires { Nests (M.within forms.now.left) forms.now.left (F.pre forms.now.inner) (F.post forms.now.inner) }
    ensures { Gives same (spec.binary_rule (M.within forms.now.left) first.now operations.now line here world.old)
        result world.new }
{
    if let Some(result) = over_known(forms, world, first, operations, line, here) {
        return result;
    }
    let first = forms.value(world, first, here)?;
    operations_from(forms, world, first, operations, line, here)
}

/// The same of one operator between a variable and a variable or an integer: without a copy of a value.
fn over_known<F: Fn(&mut World<'_>, Goal<'_>, Here, u32) -> Result<Evaluated, Stop>, M: Meaning>(
    forms: &Forms<F, M>,
    world: &World<'_>,
    first: &Expr,
    operations: &Items<Operation>,
    line: u32,
    here: Here,
) -> Option<Result<Evaluated, Stop>>
    ensures which { is_some result
        ≡ is_over_known forms.now.left first.now operations.now here world.now.scopes }
    ensures said { IfSome result (λ r. Gives same
        (spec.binary_rule (M.within forms.now.left) first.now operations.now line here world.now) r world.now) }
{
    let operation = only(operations.as_slice())?;
    let OperatorKind::Combine(op) = OperatorKind::of(operation.operator) else {
        return None;
    };
    if let Some(number) = forms.number(&operation.right) {
        let left = forms.known(world, first, here)?;
        return Some(combined(world, op, left, &Value::Int(number), line, here));
    }
    let right = forms.known(world, &operation.right, here)?;
    let left = forms.known(world, first, here)?;
    Some(combined(world, op, left, right, line, here))
}

/// Operations behind a value, from the left.
#[tactic(auto, unfolding(crate::specs::Operators::operations_from), using(crate::proofs::Operations::last_operation))]
fn operations_from<
    F: Fn(&mut World<'_>, Goal<'_>, Here, u32) -> Result<Evaluated, Stop>,
    M: Meaning,
>(
    forms: &Forms<F, M>,
    world: &mut World<'_>,
    first: Evaluated,
    operations: &Items<Operation>,
    line: u32,
    here: Here,
) -> Result<Evaluated, Stop>
    requires { Nests (M.within forms.now.left) forms.now.left (F.pre forms.now.inner) (F.post forms.now.inner) }
    ensures { Gives same (spec.operations_from (M.within forms.now.left) first operations.now line here world.old)
        result world.new }
{
    let mut done = first;
    let mut rest = operations.as_slice();
    while let Some((operation, more)) = rest.split_first() {
        if let [] = more {
            return operated(forms, world, &done, operation, line, here);
        }
        done = operated(forms, world, &done, operation, line, here)?;
        rest = more;
    }
    Ok(done)
}

/// `+ 1` behind a value.
#[tactic(auto, unfolding(crate::specs::Operators::operation_rule))]
fn operated<F: Fn(&mut World<'_>, Goal<'_>, Here, u32) -> Result<Evaluated, Stop>, M: Meaning>(
    forms: &Forms<F, M>,
    world: &mut World<'_>,
    left: &Evaluated,
    operation: &Operation,
    line: u32,
    here: Here,
) -> Result<Evaluated, Stop>
    requires { Nests (M.within forms.now.left) forms.now.left (F.pre forms.now.inner) (F.post forms.now.inner) }
    ensures { Gives same (spec.operation_rule (M.within forms.now.left) left.now operation.now line here world.old)
        result world.new }
{
    let right = &operation.right;
    match OperatorKind::of(operation.operator) {
        OperatorKind::Combine(op) => both(forms, world, op, left.as_value(), right, line, here),
        OperatorKind::Match(wanted) => matched(forms, world, wanted, left, right, line, here),
        OperatorKind::And => if_open(forms, world, is_true(left.as_value()), false, right, here),
        OperatorKind::Or => if_open(forms, world, !is_true(left.as_value()), true, right, here),
    }
}

/// An operator that takes the values of both operands.
#[tactic(auto, unfolding(crate::specs::Operators::both_rule))]
fn both<F: Fn(&mut World<'_>, Goal<'_>, Here, u32) -> Result<Evaluated, Stop>, M: Meaning>(
    forms: &Forms<F, M>,
    world: &mut World<'_>,
    op: Op,
    left: &Value,
    right: &Expr,
    line: u32,
    here: Here,
) -> Result<Evaluated, Stop>
    requires { Nests (M.within forms.now.left) forms.now.left (F.pre forms.now.inner) (F.post forms.now.inner) }
    ensures { Gives same (spec.both_rule (M.within forms.now.left) op (view left.now) right.now line here world.old)
        result world.new }
{
    if let Some(right) = forms.known(world, right, here) {
        return combined(world, op, left, right, line, here);
    }
    let right = forms.value(world, right, here)?;
    combined(world, op, left, right.as_value(), line, here)
}

/// `=~` and `!~`.
#[tactic(auto, unfolding(crate::specs::Operators::match_rule))]
fn matched<F: Fn(&mut World<'_>, Goal<'_>, Here, u32) -> Result<Evaluated, Stop>, M: Meaning>(
    forms: &Forms<F, M>,
    world: &mut World<'_>,
    wanted: bool,
    left: &Evaluated,
    right: &Expr,
    line: u32,
    here: Here,
) -> Result<Evaluated, Stop>
    requires { Nests (M.within forms.now.left) forms.now.left (F.pre forms.now.inner) (F.post forms.now.inner) }
    ensures { Gives same (spec.match_rule (M.within forms.now.left) wanted left.now right.now line here world.old)
        result world.new }
{
    let right = forms.value(world, right, here)?;
    let is_one = is_of_type(world, left, &right, line, here)?;
    Ok(Evaluated::new(Value::Flag(as_wanted(wanted, is_one))))
}

fn as_wanted(wanted: bool, is_one: bool) -> bool
    ensures { result ≡ spec.as_wanted wanted is_one }
{
    if wanted { is_one } else { !is_one }
}

/// `and` and `or`, where the value before leaves the answer open or does not.
#[tactic(auto, unfolding(crate::specs::Operators::open_rule))]
fn if_open<F: Fn(&mut World<'_>, Goal<'_>, Here, u32) -> Result<Evaluated, Stop>, M: Meaning>(
    forms: &Forms<F, M>,
    world: &mut World<'_>,
    is_open: bool,
    answer: bool,
    right: &Expr,
    here: Here,
) -> Result<Evaluated, Stop>
    requires { Nests (M.within forms.now.left) forms.now.left (F.pre forms.now.inner) (F.post forms.now.inner) }
    ensures { Gives same (spec.open_rule (M.within forms.now.left) is_open answer right.now here world.old)
        result world.new }
{
    if !is_open {
        return Ok(Evaluated::new(Value::Flag(answer)));
    }
    let truth = truth(forms, world, right, here)?;
    Ok(Evaluated::new(Value::Flag(truth)))
}
