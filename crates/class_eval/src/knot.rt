//! How the forms stand within one another: the one recursion of the evaluator.
ghost use Rattle.std.specs.Prelude.{◌≡◌, IfOk};
ghost use Rattle.pp_values.specs.Datum as d;
ghost use Rattle.class_eval.specs.Meaning as spec;
ghost use Rattle.eval_world.specs.Inner.{asked};
ghost use Rattle.eval_world.specs.Nests.{Nests};
ghost use Rattle.eval_world.specs.Outcomes.{Gives, same};

use crate::postfixes::postfixed;
use crate::statements::block;
use crate::type_names::type_named;
use eval_calls::{call, words};
use eval_classes::{class_body, instance_body};
use eval_forms::{assigned, binary, case_of, hash, if_of, interpolated, list, prefix, unless_of};
use eval_overrides::target_of;
use eval_world::{Evaluated, Forms, Goal, Here, Meaning, World};
use pp_tree::{Expr, Form, Reference};
use pp_values::{Memory, Stop, Text, Value, What};
use std::alloc::Global;
use std::marker::PhantomData;

/// Names what all forms together mean.
#[derive(Clone, Copy)]
pub struct AllForms;

impl Meaning for AllForms {
    ghost use Rattle.class_eval.specs.Meaning.{within};
    ghost use Rattle.class_eval.specs.LeafLaw.{leaves};

    ghost within = { within };

    ghost leaves = { leaves };
}

/// The value of an expression of any form.
#[tactic(auto, unfolding(crate::specs::Meaning::value_rule))]
pub fn form<F: Fn(&mut World<'_>, Goal<'_>, Here, u32) -> Result<Evaluated, Stop>, M: Meaning>(
    forms: &Forms<F, M>,
    world: &mut World<'_>,
    expr: &Expr,
    here: Here,
) -> Result<Evaluated, Stop>
    requires { Nests (M.within forms.now.left) forms.now.left (F.pre forms.now.inner) (F.post forms.now.inner) }
    ensures { Gives same (spec.value_rule (M.within forms.now.left) expr.now here world.old) result world.new }
{
    match expr.form.get() {
        Form::Undef => Ok(Evaluated::new(Value::Undef)),
        Form::Flag(flag) => Ok(Evaluated::new(Value::Flag(*flag))),
        Form::Default => Ok(Evaluated::new(Value::Default)),
        Form::Number(number) => Ok(Evaluated::new(Value::Int(*number))),
        Form::Text(text) => Ok(text_value(world.heap.alloc(), text)?),
        Form::Name(name) => Ok(text_value(world.heap.alloc(), name)?),
        Form::Interpolated(pieces) => interpolated(forms, world, pieces, here),
        Form::Variable(name) => world.read(here, name, expr.at),
        Form::Type(name) => type_named(world, name, expr.at, here),
        Form::List(items) => list(forms, world, items, here),
        Form::Hash(pairs) => hash(forms, world, pairs, expr.at, here),
        Form::Parentheses(within) => forms.value(world, within, here),
        Form::Call(called) => call(forms, world, called.get(), expr.at, here),
        Form::If(choice) => if_of(forms, world, choice.get(), expr.at, here),
        Form::Unless(choice) => unless_of(forms, world, choice.get(), expr.at, here),
        Form::Case(choice) => case_of(forms, world, choice, expr.at, here),
        Form::Postfix(first, more) => postfixed(forms, world, first.get(), more, expr.at, here),
        Form::Prefix(operator, operand) => {
            prefix(forms, world, *operator, operand, expr.at, here)
        }
        Form::Binary(first, more) => binary(forms, world, first.get(), more, expr.at, here),
        Form::Assign(name, value) => assigned(forms, world, name.get(), value, expr.at, here),
    }
}

fn text_value(alloc: Global, text: &Text) -> Result<Evaluated, Memory>
    ensures { IfOk result (λ e. e ≡ d.text text.now) }
{
    Ok(Evaluated::new(Value::Text(text.copy(alloc)?)))
}

/// The line at which a part is refused that stands too deep.
pub fn line_of(goal: Goal<'_>) -> u32
    ensures { result ≡ spec.line_of_goal goal.entry }
{
    match goal {
        Goal::Value(expr) => expr.at,
        Goal::Block(_, line) => line,
        Goal::Words(words) => words.at,
        Goal::Target(target) => line_of_target(target),
        Goal::Class(_, line) => line,
        Goal::Instance(_, line) => line,
    }
}

/// What stands too deep in a target is its first argument.
fn line_of_target(target: &Reference) -> u32
    ensures { result ≡ spec.line_of_target target.now }
{
    match target.args.as_slice() {
        [] => target.at,
        [first, ..] => first.at,
    }
}

pub fn too_deep(world: &World<'_>, goal: Goal<'_>, here: Here) -> Result<Evaluated, Stop>
    ensures { Gives same (spec.too_deep here (spec.line_of_goal goal.entry) world.now) result world.now }
{
    Err(Stop::Fault(world.fault(here, line_of(goal), What::DepthLimit)?))
}

/// The value of a part, where so many levels are left for it and what is within it.
pub fn evaluate(
    world: &mut World<'_>,
    goal: Goal<'_>,
    here: Here,
    left: u32,
) -> Result<Evaluated, Stop>
    ensures { Gives same (asked (spec.within left) goal.entry here world.old) result world.new }
{
    if left == 0 {
        return too_deep(world, goal, here);
    }
    let forms: Forms<_, AllForms> = Forms {
        left: left - 1,
        inner: evaluate,
        meaning: PhantomData,
    };
    match goal {
        Goal::Value(expr) => form(&forms, world, expr, here),
        Goal::Block(statements, _) => block(&forms, world, statements, here),
        Goal::Words(said) => words(&forms, world, said, here),
        Goal::Target(target) => target_of(&forms, world, target, here),
        Goal::Class(number, line) => class_body(&forms, world, number, line, here),
        Goal::Instance(number, line) => instance_body(&forms, world, number, line, here),
    }
}
