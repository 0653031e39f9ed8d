//! A value and what follows it.
ghost use Rattle.std.specs.Prelude.{◌≡◌, IfOk, IfSome, Ok, option_map};
ghost use Rattle.std.specs.Option.{unwrap_or};
ghost use Rattle.pp_values.specs.Datum as d;
ghost use Rattle.pp_values.specs.Views.{view};
ghost use Rattle.class_eval.specs.Postfixes as spec;
ghost use Rattle.eval_world.specs.Nests.{Nests};
ghost use Rattle.eval_world.specs.Outcomes.{Gives, same};

use eval_calls::method;
use eval_forms::{accessed, lent, selected};
use eval_world::{Evaluated, Forms, Goal, Here, Meaning, World};
use pp_tree::{Expr, Postfix};
use pp_values::{Items, Memory, Stop, Value};

/// `$a[1].f(2) ? { .. }`. Accesses to a variable's value are taken without a copy of it.
#[tactic(auto, unfolding(crate::specs::Postfixes::postfixed_rule))]
pub fn postfixed<F: Fn(&mut World<'_>, Goal<'_>, Here, u32) -> Result<Evaluated, Stop>, M: Meaning>(
    forms: &Forms<F, M>,
    world: &mut World<'_>,
    first: &Expr,
    postfixes: &Items<Postfix>,
    line: u32,
    here: Here,
) -> Result<Evaluated, Stop>
    requires { Nests (M.within forms.now.left) forms.now.left (F.pre forms.now.inner) (F.post forms.now.inner) }
    ensures { Gives same
        (spec.postfixed_rule (M.within forms.now.left) first.now postfixes.now line here world.old) result world.new }
{
    let all = postfixes.as_slice();
    if let Some((value, rest)) = over_known(forms, world, first, all, line, here)? {
        return followed(forms, world, value, rest, line, here);
    }
    let value = forms.value(world, first, here)?;
    followed(forms, world, value, all, line, here)
}

/// Where a variable comes first that has a value: a copy of what the accesses behind it find that are lent, and what
/// follows them.
#[tactic(auto, using(crate::proofs::Lending::starts, crate::proofs::Lending::goes_on))]
fn over_known<
    'p,
    F: Fn(&mut World<'_>, Goal<'_>, Here, u32) -> Result<Evaluated, Stop>,
    M: Meaning,
>(
    forms: &Forms<F, M>,
    world: &World<'_>,
    first: &Expr,
    postfixes: &'p [Postfix],
    line: u32,
    here: Here,
) -> Result<Option<(Evaluated, &'p [Postfix])>, Memory>
    ensures { IfOk result (λ o. IfSome o (λ r.
        spec.postfixed_rule (M.within forms.now.left) first.now postfixes.now line here world.now
        ≡ spec.postfixes_from (M.within forms.now.left) r.0 r.1.now line here world.now)) }
{
    let Some(known) = forms.known(world, first, here) else {
        return Ok(None);
    };
    let mut value = known;
    let mut rest = postfixes;
    while let Some((next, more)) = rest.split_first() {
        match lent_by(forms, world, value, next, line, here)? {
            Some(Some(held)) => value = held,
            Some(None) => return Ok(Some((Evaluated::new(Value::Undef), more))),
            None => break,
        }
        rest = more;
    }
    Ok(Some((Evaluated::copy_of(world.heap.alloc(), value)?, rest)))
}

/// What an access finds, where it lends that.
#[tactic(auto, unfolding(crate::specs::Postfixes::postfix_rule))]
fn lent_by<'w, F: Fn(&mut World<'_>, Goal<'_>, Here, u32) -> Result<Evaluated, Stop>, M: Meaning>(
    forms: &Forms<F, M>,
    world: &'w World<'_>,
    value: &'w Value,
    postfix: &Postfix,
    line: u32,
    here: Here,
) -> Result<Option<Option<&'w Value>>, Memory>
    ensures { IfOk result (λ r. IfSome r (λ o.
        spec.postfix_rule (M.within forms.now.left) (view value.now) postfix.now line here world.now
        ≡ Ok (unwrap_or (option_map (λ v. view v.now) o) d.undef, world.now))) }
{
    match postfix {
        Postfix::Access(args) => lent(forms, world, value, args, here),
        Postfix::Method(_) | Postfix::Select(_) => Ok(None),
    }
}

#[tactic(auto, unfolding(crate::specs::Postfixes::postfixes_from))]
fn followed<F: Fn(&mut World<'_>, Goal<'_>, Here, u32) -> Result<Evaluated, Stop>, M: Meaning>(
    forms: &Forms<F, M>,
    world: &mut World<'_>,
    value: Evaluated,
    postfixes: &[Postfix],
    line: u32,
    here: Here,
) -> Result<Evaluated, Stop>
    requires { Nests (M.within forms.now.left) forms.now.left (F.pre forms.now.inner) (F.post forms.now.inner) }
    ensures { Gives same
        (spec.postfixes_from (M.within forms.now.left) value postfixes.now line here world.old) result world.new }
{
    let mut done = value;
    let mut rest = postfixes;
    while let Some((next, more)) = rest.split_first() {
        done = postfix(forms, world, done, next, line, here)?;
        rest = more;
    }
    Ok(done)
}

#[tactic(auto, unfolding(crate::specs::Postfixes::postfix_rule))]
fn postfix<F: Fn(&mut World<'_>, Goal<'_>, Here, u32) -> Result<Evaluated, Stop>, M: Meaning>(
    forms: &Forms<F, M>,
    world: &mut World<'_>,
    value: Evaluated,
    postfix: &Postfix,
    line: u32,
    here: Here,
) -> Result<Evaluated, Stop>
    requires { Nests (M.within forms.now.left) forms.now.left (F.pre forms.now.inner) (F.post forms.now.inner) }
    ensures { Gives same
        (spec.postfix_rule (M.within forms.now.left) value postfix.now line here world.old) result world.new }
{
    match postfix {
        Postfix::Access(args) => accessed(forms, world, value, args, line, here),
        Postfix::Method(call) => method(forms, world, value, call.get(), line, here),
        Postfix::Select(options) => selected(forms, world, value, options, line, here),
    }
}
