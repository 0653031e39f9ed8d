//! The titles of bodies whose values are there.
ghost use Rattle.eval_resources.specs.Resources as spec;
ghost use Rattle.eval_world.specs.Nests.{Nests};
ghost use Rattle.eval_world.specs.Outcomes.{Gives, nothing};
ghost use Rattle.pp_values.specs.Views.{view, views};

use crate::attributes::attributes;
use crate::checks::tested;
use crate::classes::class_tested;
use crate::declaring::declare;
use eval_classes::declare_class;
use eval_world::{Evaluated, Forms, Goal, Here, Meaning, World};
use pp_values::{Stop, Text, Value};
use res_core::{Body, Form};

/// Declares each title of each body, in order.
#[tactic(auto, unfolding(crate::specs::Resources::declare_bodies))]
pub fn declare_bodies<
    F: Fn(&mut World<'_>, Goal<'_>, Here, u32) -> Result<Evaluated, Stop>,
    M: Meaning,
>(
    forms: &Forms<F, M>,
    world: &mut World<'_>,
    form: Form,
    kind: &Text,
    bodies: &[Body],
    here: Here,
) -> Result<(), Stop>
    requires { Nests (M.within forms.now.left) forms.now.left (F.pre forms.now.inner) (F.post forms.now.inner) }
    ensures { Gives nothing
        (spec.declare_bodies (M.within forms.now.left) form kind.now bodies.now here world.old) result
        world.new }
{
    let mut rest = bodies;
    while let Some((body, more)) = rest.split_first() {
        declare_titles(forms, world, form, kind, body.titles.as_slice(), body, here)?;
        rest = more;
    }
    Ok(())
}

#[tactic(auto, unfolding(crate::specs::Resources::titles_rule))]
fn declare_titles<
    F: Fn(&mut World<'_>, Goal<'_>, Here, u32) -> Result<Evaluated, Stop>,
    M: Meaning,
>(
    forms: &Forms<F, M>,
    world: &mut World<'_>,
    form: Form,
    kind: &Text,
    titles: &[Value],
    body: &Body,
    here: Here,
) -> Result<(), Stop>
    requires { Nests (M.within forms.now.left) forms.now.left (F.pre forms.now.inner) (F.post forms.now.inner) }
    ensures { Gives nothing
        (spec.titles_rule (M.within forms.now.left) form kind.now (views titles.now) body.now here world.old)
        result world.new }
{
    let mut rest = titles;
    while let Some((title, more)) = rest.split_first() {
        declare_title(forms, world, form, kind, title, body, here)?;
        rest = more;
    }
    Ok(())
}

#[tactic(auto, unfolding(crate::specs::Resources::title_rule))]
fn declare_title<F: Fn(&mut World<'_>, Goal<'_>, Here, u32) -> Result<Evaluated, Stop>, M: Meaning>(
    forms: &Forms<F, M>,
    world: &mut World<'_>,
    form: Form,
    kind: &Text,
    title: &Value,
    body: &Body,
    here: Here,
) -> Result<(), Stop>
    requires { Nests (M.within forms.now.left) forms.now.left (F.pre forms.now.inner) (F.post forms.now.inner) }
    ensures { Gives nothing
        (spec.title_rule (M.within forms.now.left) form kind.now (view title.now) body.now here world.old)
        result world.new }
{
    if kind.is("class") {
        declare_class_title(forms, world, form, title, body, here)
    } else {
        declare_resource(world, form, kind, title, body, here)
    }
}

/// The tests of one title, its declaration, the override lines that came before it.
#[tactic(auto, unfolding(crate::specs::Resources::declared_rule))]
fn declare_resource(
    world: &mut World<'_>,
    form: Form,
    kind: &Text,
    title: &Value,
    body: &Body,
    here: Here,
) -> Result<(), Stop>
    ensures { Gives nothing
        (spec.declared_rule form kind.now (view title.now) body.now here world.old) result world.new }
{
    let alloc = world.heap.alloc();
    let named = tested(alloc, &world.environment, kind, title, body)?;
    let number = declare(world, form, named, body, here)?;
    world.overrides.stand(alloc, &world.book, number)
}

/// The tests of a class, its declaration and evaluation.
#[tactic(auto, unfolding(crate::specs::Resources::class_title_rule))]
fn declare_class_title<
    F: Fn(&mut World<'_>, Goal<'_>, Here, u32) -> Result<Evaluated, Stop>,
    M: Meaning,
>(
    forms: &Forms<F, M>,
    world: &mut World<'_>,
    form: Form,
    title: &Value,
    body: &Body,
    here: Here,
) -> Result<(), Stop>
    requires { Nests (M.within forms.now.left) forms.now.left (F.pre forms.now.inner) (F.post forms.now.inner) }
    ensures { Gives nothing
        (spec.class_title_rule (M.within forms.now.left) form (view title.now) body.now here world.old)
        result world.new }
{
    let alloc = world.heap.alloc();
    let class = class_tested(alloc, &world.environment, form, title, body)?;
    let given = attributes(alloc, body.lines.as_slice())?;
    declare_class(forms, world, class, &given, &body.at, here.owner)
}
