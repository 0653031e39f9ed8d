//! The operators over two values.
ghost use Rattle.std.specs.Prelude.{◌≡◌};
ghost use Rattle.std.specs.List.{list_any};
ghost use Rattle.pp_ops.specs.Said.{said};
ghost use Rattle.pp_types.specs.Accepts.{type_accepts};
ghost use Rattle.pp_values.specs.Answers.{Answers};
ghost use Rattle.pp_values.specs.PTypes.{sort};
ghost use Rattle.pp_values.specs.Views.{view, views, pair_views};
ghost use Rattle.expr_eval.specs.Combining.{accepts_some, combined};

use crate::type_values::accessed;
use pp_ops::{Op, apply_op};
use pp_types::accepts;
use pp_values::{PType, Place, Stop, Value};
use std::alloc::Global;

/// The value of an operator, or its fault at this place, which names the operator or the data type.
///
/// `Op::Negate` takes its value on the left and ignores the right; `Op::Access` takes the list of its arguments on the
/// right. Access gives a data type these arguments in the place of those that it had, so `Integer[1][2]` is
/// `Integer[2]`; of a class and of a kind of resource it makes a reference, which takes no further access.
pub fn combine(
    alloc: Global,
    op: Op,
    left: &Value,
    right: &Value,
    at: &Place,
) -> Result<Value, Stop>
    ensures { Answers (said result) (combined op (view left.now) (view right.now) at.now) }
{
    match (op, left) {
        (Op::Member, Value::Kind(kind)) => Ok(Value::Flag(accepts_some(kind.as_type(), right))),
        (Op::Access, Value::Kind(kind)) => accessed(alloc, kind.as_type(), right, at),
        _ => apply_op(alloc, op, left, right, at),
    }
}

/// Whether the type accepts some member of a list, or some key of a hash.
#[tactic(auto, using(crate::proofs::Back::members_back, crate::proofs::Back::pairs_back))]
fn accepts_some(kind: &PType, whole: &Value) -> bool
    ensures { result ≡ accepts_some (sort kind.now) (view whole.now) }
{
    match whole {
        Value::List(items) => accepts_member(kind, items.as_slice()),
        Value::Hash(pairs) => accepts_key(kind, pairs.as_slice()),
        _ => false,
    }
}

fn accepts_member(kind: &PType, items: &[Value]) -> bool
    ensures { result ≡ list_any (type_accepts (sort kind.now)) (views items.now) }
{
    for item in items {
        if accepts(kind, item) {
            return true;
        }
    }
    false
}

fn accepts_key(kind: &PType, pairs: &[(Value, Value)]) -> bool
    ensures { result ≡ list_any (λ p. type_accepts (sort kind.now) p.0) (pair_views pairs.now) }
{
    for (key, _) in pairs {
        if accepts(kind, key) {
            return true;
        }
    }
    false
}
