//! Access to a value.
ghost use Rattle.std.specs.Prelude.{◌≡◌, IfOk, IfSome, Ok, ℕ, option_map};
ghost use Rattle.std.specs.Option.{unwrap_or};
ghost use Rattle.pp_values.specs.Datum as d;
ghost use Rattle.pp_values.specs.Views.{view};
ghost use Rattle.eval_forms.specs.Accesses as spec;
ghost use Rattle.eval_forms.specs.Lent as lending;
ghost use Rattle.eval_world.specs.Nests.{Nests};
ghost use Rattle.eval_world.specs.Outcomes.{Gives, same};
ghost use Rattle.eval_world.specs.declared.here.Here.{Here};
ghost use Rattle.eval_world.specs.declared.world.World.{World};

use crate::answering::combined;
use eval_world::{Evaluated, Forms, Goal, Here, Meaning, World, only};
use pp_ops::{Op, member_at};
use pp_tree::{Args, Expr, Form};
use pp_values::{Memory, Stop, Text, Value};

/// `[1]` behind a value that is there: the arguments are evaluated first. A type takes them as its own, so `File['/a']`
/// is a reference.
#[tactic(auto, unfolding(crate::specs::Accesses::accessed_rule))]
pub fn accessed<F: Fn(&mut World<'_>, Goal<'_>, Here, u32) -> Result<Evaluated, Stop>, M: Meaning>(
    forms: &Forms<F, M>,
    world: &mut World<'_>,
    value: Evaluated,
    args: &Args,
    line: u32,
    here: Here,
) -> Result<Evaluated, Stop>
    requires { Nests (M.within forms.now.left) forms.now.left (F.pre forms.now.inner) (F.post forms.now.inner) }
    ensures { Gives same (spec.accessed_rule (M.within forms.now.left) value args.now line here world.old)
        result world.new }
{
    let arguments = Value::List(forms.values(world, args, here)?);
    combined(world, Op::Access, value.as_value(), &arguments, line, here)
}

/// The same of a value that is lent, with one key that is there: what the list or the hash has, lent too, or nothing
/// where it has none. The answer is `None` for any other access.
#[tactic(auto, using(crate::proofs::Lending::none_asked, crate::proofs::Lending::no_key, crate::proofs::Lending::known_which, crate::proofs::Lending::known_said, crate::proofs::Lending::number_which, crate::proofs::Lending::number_said, crate::proofs::Lending::text_which, crate::proofs::Lending::text_said))]
pub fn lent<'w, F: Fn(&mut World<'_>, Goal<'_>, Here, u32) -> Result<Evaluated, Stop>, M: Meaning>(
    forms: &Forms<F, M>,
    world: &'w World<'_>,
    value: &'w Value,
    args: &Args,
    here: Here,
) -> Result<Option<Option<&'w Value>>, Memory>
    ensures which { IfOk result (λ r. option_map (option_map (λ v. view v.now)) r
        ≡ lending.lent_in forms.now.left (view value.now) args.now here world.now.scopes) }
    ensures said { IfOk result (λ r. IfSome r (λ o. (line : ℕ)
        → spec.accessed_rule (M.within forms.now.left) (view value.now) args.now line here world.now
        ≡ Ok (unwrap_or (option_map (λ v. view v.now) o) d.undef, world.now))) }
{
    let Some(key) = only(args.as_slice()) else {
        return Ok(None);
    };
    if let Some(known) = forms.known(world, key, here) {
        return Ok(held_in(value, known));
    }
    if let Some(number) = forms.number(key) {
        return Ok(held_in(value, &Value::Int(number)));
    }
    let Some(text) = written(forms, key) else {
        return Ok(None);
    };
    let text = Value::Text(text.copy(world.heap.alloc())?);
    Ok(held_in(value, &text))
}

/// The text or the name that an expression is by itself, where it does not stand too deep.
#[tactic(auto, unfolding(crate::specs::Lent::text_in), using(crate::proofs::Lending::none_too_deep))]
fn written<'e, F: Fn(&mut World<'_>, Goal<'_>, Here, u32) -> Result<Evaluated, Stop>, M: Meaning>(
    forms: &Forms<F, M>,
    expr: &'e Expr,
) -> Option<&'e Text>
    ensures which { option_map (λ t. d.text t.now) result ≡ lending.text_in forms.now.left expr.now }
    ensures said { IfSome result (λ t. (here : Here) → (w : World)
        → (M.within forms.now.left).value expr.now here w ≡ Ok (d.text t.now, w)) }
{
    if forms.left == 0 {
        return None;
    }
    match expr.form.get() {
        Form::Text(text) => Some(text),
        Form::Name(name) => Some(name),
        _ => None,
    }
}

/// What a list has at a place, and a hash for a key.
fn held_in<'v>(whole: &'v Value, key: &Value) -> Option<Option<&'v Value>>
    ensures { option_map (option_map (λ v. view v.now)) result ≡ lending.held_in (view whole.now) (view key.now) }
{
    match (whole, key) {
        (Value::List(items), Value::Int(at)) => Some(member_at(items.as_slice(), *at)),
        (Value::Hash(pairs), key) => Some(pairs.get(key)),
        _ => None,
    }
}
