//! Statements that are run for what they do, and whose values nobody asks for.
ghost use Rattle.class_eval.specs.Meaning.{value_rule, within};
ghost use Rattle.class_eval.specs.Running as spec;
ghost use Rattle.class_eval.specs.Statements.{statement_rule};
ghost use Rattle.eval_forms.specs.Operators.{assigned_rule};
ghost use Rattle.eval_world.specs.Nests.{Nests};
ghost use Rattle.eval_world.specs.Outcomes.{Gives, nothing};

use crate::knot::{AllForms, evaluate, form};
use crate::statements::{stated, statement};
use eval_world::{Evaluated, Forms, Goal, Here, Meaning, World};
use pp_tree::{Block, Expr, Form, Statement};
use pp_values::{Stop, Text};
use std::marker::PhantomData;

/// Runs statements in order, where so many levels are left.
#[tactic(auto, unfolding(crate::specs::Running::run_from))]
pub fn run(world: &mut World<'_>, block: &Block, here: Here, left: u32) -> Result<(), Stop>
    ensures { Gives nothing (spec.run_from (within left) block.now here world.old) result world.new }
{
    let mut rest = block.as_slice();
    while let Some((next, more)) = rest.split_first() {
        run_one(world, next, here, left)?;
        rest = more;
    }
    Ok(())
}

#[tactic(auto, using(crate::proofs::Runs::run_stated))]
fn run_one(world: &mut World<'_>, next: &Statement, here: Here, left: u32) -> Result<(), Stop>
    ensures { Gives nothing (spec.run (statement_rule (within left) next.now here) world.old) result world.new }
{
    if let Some(expr) = stated(next) {
        return run_expr(world, expr, here, left);
    }
    let forms: Forms<_, AllForms> = Forms {
        left,
        inner: evaluate,
        meaning: PhantomData,
    };
    drop(statement(&forms, world, next, here)?);
    Ok(())
}

#[tactic(auto, using(crate::proofs::Runs::one_level_run))]
fn run_expr(world: &mut World<'_>, expr: &Expr, here: Here, left: u32) -> Result<(), Stop>
    ensures { Gives nothing (spec.run ((within left).value expr.now here) world.old) result world.new }
{
    if left == 0 {
        drop(evaluate(world, Goal::Value(expr), here, left)?);
        return Ok(());
    }
    let forms: Forms<_, AllForms> = Forms {
        left: left - 1,
        inner: evaluate,
        meaning: PhantomData,
    };
    run_form(&forms, world, expr, here)
}

/// An assignment sets its value without a copy of it.
#[tactic(auto, unfolding(crate::specs::Meaning::value_rule))]
fn run_form<F: Fn(&mut World<'_>, Goal<'_>, Here, u32) -> Result<Evaluated, Stop>, M: Meaning>(
    forms: &Forms<F, M>,
    world: &mut World<'_>,
    expr: &Expr,
    here: Here,
) -> Result<(), Stop>
    requires { Nests (M.within forms.now.left) forms.now.left (F.pre forms.now.inner) (F.post forms.now.inner) }
    ensures { Gives nothing (spec.run (value_rule (M.within forms.now.left) expr.now here) world.old) result world.new }
{
    match expr.form.get() {
        Form::Assign(name, value) => run_assignment(forms, world, name.get(), value, expr.at, here),
        _ => {
            drop(form(forms, world, expr, here)?);
            Ok(())
        }
    }
}

#[tactic(auto, unfolding(eval_forms::specs::Operators::assigned_rule), using(crate::proofs::Runs::run_assigned, crate::proofs::Runs::run_unset))]
fn run_assignment<
    F: Fn(&mut World<'_>, Goal<'_>, Here, u32) -> Result<Evaluated, Stop>,
    M: Meaning,
>(
    forms: &Forms<F, M>,
    world: &mut World<'_>,
    name: &Text,
    expr: &Expr,
    line: u32,
    here: Here,
) -> Result<(), Stop>
    requires { Nests (M.within forms.now.left) forms.now.left (F.pre forms.now.inner) (F.post forms.now.inner) }
    ensures { Gives nothing (spec.run (assigned_rule (M.within forms.now.left) name.now expr.now line here) world.old)
        result world.new }
{
    let value = forms.value(world, expr, here)?;
    world.assign(here, name, value, line)
}
