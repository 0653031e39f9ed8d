//! Resource expressions in chains with arrows.
ghost use Rattle.std.specs.Prelude.{◌≡◌, ◌++◌, [], IfOk, OnOk};
ghost use Rattle.eval_resources.specs.Relating as spec;
ghost use Rattle.eval_world.specs.Nests.{Nests};
ghost use Rattle.eval_world.specs.Outcomes.{Gives, same};
ghost use Rattle.pp_values.specs.Datum.{text};
ghost use Rattle.pp_values.specs.Views.{view, views};

use crate::bodies::bodies;
use crate::resources::form_of;
use crate::titles::declare_bodies;
use eval_classes::normal_name;
use eval_world::{Evaluated, Forms, Goal, Here, Meaning, World};
use pp_tree::Resource;
use pp_values::{Kind, Memory, Reference, Stop, Text, Value};
use res_core::{Body, Operand, Operands};
use std::alloc::Global;

/// Declares what a resource expression declares. The answer is what it stands for between arrows: the references of all
/// its titles.
#[tactic(auto, unfolding(crate::specs::Relating::operands_rule))]
pub fn operands<F: Fn(&mut World<'_>, Goal<'_>, Here, u32) -> Result<Evaluated, Stop>, M: Meaning>(
    forms: &Forms<F, M>,
    world: &mut World<'_>,
    written: &Resource,
    here: Here,
) -> Result<Operands, Stop>
    requires { Nests (M.within forms.now.left) forms.now.left (F.pre forms.now.inner) (F.post forms.now.inner) }
    ensures { Gives same (spec.operands_rule (M.within forms.now.left) written.now here world.old) result world.new }
{
    let bodies = bodies(forms, world, &written.bodies, here)?;
    let kind = normal_name(world.heap.alloc(), &written.kind)?;
    declare_bodies(
        forms,
        world,
        form_of(written.form),
        &kind,
        bodies.as_slice(),
        here,
    )?;
    Ok(declared_operands(world.heap.alloc(), &kind, bodies.as_slice())?)
}

#[tactic(auto, unfolding(crate::specs::Relating::declared_operands))]
fn declared_operands(alloc: Global, kind: &Text, bodies: &[Body]) -> Result<Operands, Memory>
    ensures { IfOk result (λ l. l ≡ spec.declared_operands kind.now [] bodies.now) }
{
    let mut done = Operands::new(alloc);
    let mut rest = bodies;
    while let Some((body, more)) = rest.split_first() {
        add_titles(alloc, &mut done, kind, body.titles.as_slice())?;
        rest = more;
    }
    Ok(done)
}

#[tactic(auto, unfolding(crate::specs::Relating::body_operands))]
fn add_titles(
    alloc: Global,
    done: &mut Operands,
    kind: &Text,
    titles: &[Value],
) -> Result<(), Memory>
    ensures { OnOk result (done.new ≡ spec.body_operands kind.now done.old (views titles.now)) }
{
    let mut rest = titles;
    while let Some((title, more)) = rest.split_first() {
        add_title(alloc, done, kind, title)?;
        rest = more;
    }
    Ok(())
}

fn add_title(alloc: Global, done: &mut Operands, kind: &Text, title: &Value) -> Result<(), Memory>
    ensures { OnOk result (done.new ≡ done.old ++ spec.title_operands kind.now (view title.now)) }
{
    match title {
        Value::Text(title) => add_reference(alloc, done, kind, title),
        _ => Ok(()),
    }
}

fn add_reference(
    alloc: Global,
    done: &mut Operands,
    kind: &Text,
    title: &Text,
) -> Result<(), Memory>
    ensures { OnOk result (done.new
        ≡ done.old ++ spec.title_operands kind.now (text title.now)) }
{
    match Kind::from_text(kind.copy(alloc)?) {
        Some(named) => {
            let title = title_as(alloc, kind, title)?;
            done.push(Operand::One(Reference { kind: named, title }))?;
            Ok(())
        }
        None => Ok(()),
    }
}

/// A class is called by its normal name.
fn title_as(alloc: Global, kind: &Text, title: &Text) -> Result<Text, Memory>
    ensures { IfOk result (λ t. t ≡ spec.title_as kind.now title.now) }
{
    if kind.is("class") {
        normal_name(alloc, title)
    } else {
        title.copy(alloc)
    }
}
