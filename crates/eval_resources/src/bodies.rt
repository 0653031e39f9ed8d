//! The bodies of a resource expression.
ghost use Rattle.std.specs.Prelude.{◌≡◌, ◌+◌, ◌^◌, ◌<◌, ◌≤◌, ◌∷◌, ◌++◌, [], length, IfOk};
ghost use Rattle.eval_resources.specs.Bodies as spec;
ghost use Rattle.eval_world.specs.Nests.{Nests};
ghost use Rattle.eval_world.specs.Outcomes.{Gives, same};

use crate::filling::filled;
use attribute_lines::lines;
use eval_classes::flat;
use eval_world::{Evaluated, Forms, Goal, Here, Meaning, World};
use pp_tree::Body as Written;
use pp_values::{Items, Memory, Stop};
use res_core::{Bodies, Body, Lines};

/// All bodies but the default ones, whose lines are filled in.
#[tactic(auto, unfolding(crate::specs::Bodies::bodies_rule))]
pub fn bodies<F: Fn(&mut World<'_>, Goal<'_>, Here, u32) -> Result<Evaluated, Stop>, M: Meaning>(
    forms: &Forms<F, M>,
    world: &mut World<'_>,
    written: &Items<Written>,
    here: Here,
) -> Result<Bodies, Stop>
    requires { Nests (M.within forms.now.left) forms.now.left (F.pre forms.now.inner) (F.post forms.now.inner) }
    ensures { Gives same (spec.bodies_rule (M.within forms.now.left) written.now here world.old) result world.new }
{
    let defaults = defaults(forms, world, written, here)?;
    others(forms, world, defaults.as_slice(), written, here)
}

/// The lines of each default body.
#[tactic(auto, unfolding(crate::specs::Bodies::defaults_from))]
fn defaults<F: Fn(&mut World<'_>, Goal<'_>, Here, u32) -> Result<Evaluated, Stop>, M: Meaning>(
    forms: &Forms<F, M>,
    world: &mut World<'_>,
    written: &Items<Written>,
    here: Here,
) -> Result<Items<Lines>, Stop>
    requires { Nests (M.within forms.now.left) forms.now.left (F.pre forms.now.inner) (F.post forms.now.inner) }
    ensures { Gives same
        (spec.defaults_from (M.within forms.now.left) [] written.now here world.old) result world.new }
{
    let mut done = Items::new(world.heap.alloc());
    let mut rest = written.as_slice();
    while let Some((body, more)) = rest.split_first() {
        done = with_default(forms, world, done, body, here)?;
        rest = more;
    }
    Ok(done)
}

fn with_default<F: Fn(&mut World<'_>, Goal<'_>, Here, u32) -> Result<Evaluated, Stop>, M: Meaning>(
    forms: &Forms<F, M>,
    world: &mut World<'_>,
    done: Items<Lines>,
    body: &Written,
    here: Here,
) -> Result<Items<Lines>, Stop>
    requires { Nests (M.within forms.now.left) forms.now.left (F.pre forms.now.inner) (F.post forms.now.inner) }
    ensures { Gives same (spec.default_more (M.within forms.now.left) (spec.is_default body.now) done
        body.now here world.old) result world.new }
{
    if is_default(body) {
        return with_lines(forms, world, done, body, here);
    }
    Ok(done)
}

#[tactic(auto, unfolding(crate::specs::Bodies::default_rule))]
fn with_lines<F: Fn(&mut World<'_>, Goal<'_>, Here, u32) -> Result<Evaluated, Stop>, M: Meaning>(
    forms: &Forms<F, M>,
    world: &mut World<'_>,
    done: Items<Lines>,
    body: &Written,
    here: Here,
) -> Result<Items<Lines>, Stop>
    requires { Nests (M.within forms.now.left) forms.now.left (F.pre forms.now.inner) (F.post forms.now.inner) }
    ensures { Gives same (spec.default_rule (M.within forms.now.left) done body.now here world.old) result world.new }
{
    drop(forms.value(world, &body.title, here)?);
    let none = Lines::new(world.heap.alloc());
    let lines = lines(forms, world, none, &body.attributes, here)?;
    Ok(with_last(done, lines)?)
}

fn with_last(mut done: Items<Lines>, lines: Lines) -> Result<Items<Lines>, Memory>
    ensures { IfOk result (λ ls. ls ≡ done ++ lines ∷ []) }
{
    done.push(lines)?;
    Ok(done)
}

fn is_default(body: &Written) -> bool
    ensures { result ≡ spec.is_default body.now }
{
    eval_world::is_default(&body.title)
}

/// The bodies that are no default body.
#[tactic(auto, unfolding(crate::specs::Bodies::bodies_from))]
fn others<F: Fn(&mut World<'_>, Goal<'_>, Here, u32) -> Result<Evaluated, Stop>, M: Meaning>(
    forms: &Forms<F, M>,
    world: &mut World<'_>,
    defaults: &[Lines],
    written: &Items<Written>,
    here: Here,
) -> Result<Bodies, Stop>
    requires { Nests (M.within forms.now.left) forms.now.left (F.pre forms.now.inner) (F.post forms.now.inner) }
    ensures { Gives same (spec.bodies_from (M.within forms.now.left) defaults.now 0 []
        written.now here world.old) result world.new }
{
    let count = written.len();
    let mut before = 0;
    let mut done = Bodies::new(world.heap.alloc());
    let mut rest = written.as_slice();
    while let Some((body, more)) = rest.split_first() {
        done = with_other(forms, world, defaults, before, done, body, here)?;
        before = before_next(body, before);
        rest = more;
    }
    Ok(done)
}

/// How many default bodies stand before the next body, where so many stand before this one.
fn before_next(body: &Written, before: usize) -> usize
    requires { before + 1 < 2 ^ 64 }
    ensures next { result ≡ spec.before_next (spec.is_default body.now) before }
    ensures most { result ≤ before + 1 }
{
    if is_default(body) { before + 1 } else { before }
}

fn with_other<F: Fn(&mut World<'_>, Goal<'_>, Here, u32) -> Result<Evaluated, Stop>, M: Meaning>(
    forms: &Forms<F, M>,
    world: &mut World<'_>,
    defaults: &[Lines],
    before: usize,
    done: Bodies,
    body: &Written,
    here: Here,
) -> Result<Bodies, Stop>
    requires { Nests (M.within forms.now.left) forms.now.left (F.pre forms.now.inner) (F.post forms.now.inner) }
    ensures { Gives same (spec.body_more (M.within forms.now.left) (spec.is_default body.now)
        defaults.now before done body.now here world.old) result world.new }
{
    if is_default(body) {
        return Ok(done);
    }
    let mut done = done;
    let body = other(forms, world, defaults, before, body, here)?;
    done.push(body)?;
    Ok(done)
}

/// One body: the titles come first, then the lines.
#[tactic(auto, unfolding(crate::specs::Bodies::body_rule))]
fn other<F: Fn(&mut World<'_>, Goal<'_>, Here, u32) -> Result<Evaluated, Stop>, M: Meaning>(
    forms: &Forms<F, M>,
    world: &mut World<'_>,
    defaults: &[Lines],
    before: usize,
    body: &Written,
    here: Here,
) -> Result<Body, Stop>
    requires { Nests (M.within forms.now.left) forms.now.left (F.pre forms.now.inner) (F.post forms.now.inner) }
    ensures { Gives same (spec.body_rule (M.within forms.now.left) defaults.now before body.now here world.old)
        result world.new }
{
    let title = forms.value(world, &body.title, here)?;
    let none = Lines::new(world.heap.alloc());
    let own = lines(forms, world, none, &body.attributes, here)?;
    let at = world.place(here, body.at)?;
    let titles = flat(world.heap.alloc(), title.as_value())?;
    let lines = filled(world.heap.alloc(), own, before, defaults)?;
    Ok(Body { titles, lines, at })
}
