//! Statements and blocks.
ghost use Rattle.std.specs.Prelude.{◌≡◌, IfSome};
ghost use Rattle.class_eval.specs.Single.{IsBlock, IsChain, IsOperand, IsStatement};
ghost use Rattle.class_eval.specs.Statements as spec;
ghost use Rattle.eval_world.specs.Nests.{Nests};
ghost use Rattle.eval_world.specs.Outcomes.{Gives, nothing, same};
ghost use Rattle.pp_tree.specs.declared.statement.Operand.{out-Operand};
ghost use Rattle.pp_tree.specs.declared.statement.Statement.{out-Statement};
ghost use Rattle.pp_values.specs.Datum.{text};

use crate::chains::relate_chain;
use eval_collectors::collector;
use eval_overrides::{defaults_of, override_of};
use eval_resources::resource;
use eval_world::{Evaluated, Forms, Goal, Here, Meaning, World};
use pp_tree::{Block, Chain, Expr, Operand, Statement};
use pp_values::{Stop, Text, Value};

/// The value of a block: that of its last statement that gives one, and Undef where none does.
#[inline(always)]
#[tactic(auto, unfolding(crate::specs::Statements::statements_from), using(crate::proofs::Single::of_block))]
pub fn block<F: Fn(&mut World<'_>, Goal<'_>, Here, u32) -> Result<Evaluated, Stop>, M: Meaning>(
    forms: &Forms<F, M>,
    world: &mut World<'_>,
    block: &Block,
    here: Here,
) -> Result<Evaluated, Stop>
    requires { Nests (M.within forms.now.left) forms.now.left (F.pre forms.now.inner) (F.post forms.now.inner) }
    ensures { Gives same (spec.block_rule (M.within forms.now.left) block.now here world.old) result world.new }
{
    if let Some(expr) = only_expression(block) {
        return forms.value(world, expr, here);
    }
    let mut last = Evaluated::new(Value::Undef);
    let mut rest = block.as_slice();
    while let Some((next, more)) = rest.split_first() {
        let given = statement(forms, world, next, here)?;
        last = or_before(given, last);
        rest = more;
    }
    Ok(last)
}

/// The expression that a block is, where it is nothing more.
#[inline(always)]
fn only_expression(block: &Block) -> Option<&Expr>
    ensures { IfSome result (λ e. IsBlock e.now block.now) }
{
    match block.as_slice() {
        [only] => stated(only),
        _ => None,
    }
}

pub fn stated(statement: &Statement) -> Option<&Expr>
    ensures { IfSome result (λ e. IsStatement e.now (out-Statement statement.now)) }
{
    match statement {
        Statement::Chain(chain) => only_operand(chain),
        Statement::Words(_) => None,
        Statement::Emit(_) => None,
        Statement::EmitValue(_) => None,
    }
}

fn only_operand(chain: &Chain) -> Option<&Expr>
    ensures { IfSome result (λ e. IsChain e.now chain.now.links chain.now.first) }
{
    match chain.links.as_slice() {
        [] => expressed(&chain.first),
        _ => None,
    }
}

fn expressed(operand: &Operand) -> Option<&Expr>
    ensures { IfSome result (λ e. IsOperand e.now (out-Operand operand.now)) }
{
    match operand {
        Operand::Expr(expr) => Some(expr),
        _ => None,
    }
}

fn or_before(given: Option<Evaluated>, before: Evaluated) -> Evaluated
    ensures { result ≡ spec.or_before given before }
{
    match given {
        Some(value) => value,
        None => before,
    }
}

#[tactic(auto, unfolding(crate::specs::Statements::statement_rule))]
pub fn statement<F: Fn(&mut World<'_>, Goal<'_>, Here, u32) -> Result<Evaluated, Stop>, M: Meaning>(
    forms: &Forms<F, M>,
    world: &mut World<'_>,
    statement: &Statement,
    here: Here,
) -> Result<Option<Evaluated>, Stop>
    requires { Nests (M.within forms.now.left) forms.now.left (F.pre forms.now.inner) (F.post forms.now.inner) }
    ensures { Gives same (spec.statement_rule (M.within forms.now.left) statement.now here world.old) result world.new }
{
    match statement {
        Statement::Chain(chain) => chained(forms, world, chain, here),
        Statement::Words(words) => Ok(Some(forms.words(world, words.get(), here)?)),
        Statement::Emit(text) => {
            world.emit(text.as_str())?;
            Ok(None)
        }
        Statement::EmitValue(expr) => {
            emit_value(forms, world, expr, here)?;
            Ok(None)
        }
    }
}

/// In a template: the text of a value.
fn emit_value<F: Fn(&mut World<'_>, Goal<'_>, Here, u32) -> Result<Evaluated, Stop>, M: Meaning>(
    forms: &Forms<F, M>,
    world: &mut World<'_>,
    expr: &Expr,
    here: Here,
) -> Result<(), Stop>
    requires { Nests (M.within forms.now.left) forms.now.left (F.pre forms.now.inner) (F.post forms.now.inner) }
    ensures { Gives nothing (spec.emitted_value (M.within forms.now.left) expr.now here world.old) result world.new }
{
    let value = forms.value(world, expr, here)?;
    world.emit_value(value.as_value())
}

/// Operands with arrows between them, or one alone.
#[tactic(auto, unfolding(crate::specs::Statements::chain_rule))]
fn chained<F: Fn(&mut World<'_>, Goal<'_>, Here, u32) -> Result<Evaluated, Stop>, M: Meaning>(
    forms: &Forms<F, M>,
    world: &mut World<'_>,
    chain: &Chain,
    here: Here,
) -> Result<Option<Evaluated>, Stop>
    requires { Nests (M.within forms.now.left) forms.now.left (F.pre forms.now.inner) (F.post forms.now.inner) }
    ensures { Gives same (spec.chain_rule (M.within forms.now.left) chain.now here world.old) result world.new }
{
    match chain.links.as_slice() {
        [] => operand(forms, world, &chain.first, chain.at, here),
        [_, ..] => {
            let links = chain.links.as_slice();
            relate_chain(forms, world, &chain.first, links, chain.at, here)?;
            Ok(None)
        }
    }
}

#[tactic(auto, unfolding(crate::specs::Statements::operand_rule))]
fn operand<F: Fn(&mut World<'_>, Goal<'_>, Here, u32) -> Result<Evaluated, Stop>, M: Meaning>(
    forms: &Forms<F, M>,
    world: &mut World<'_>,
    operand: &Operand,
    line: u32,
    here: Here,
) -> Result<Option<Evaluated>, Stop>
    requires { Nests (M.within forms.now.left) forms.now.left (F.pre forms.now.inner) (F.post forms.now.inner) }
    ensures { Gives same (spec.operand_rule (M.within forms.now.left) operand.now line here world.old) result world.new }
{
    match operand {
        Operand::Expr(expr) => Ok(Some(forms.value(world, expr, here)?)),
        Operand::Resource(declared) => {
            resource(forms, world, declared.get(), here)?;
            Ok(None)
        }
        Operand::Collector(registered) => {
            collector(forms, world, registered.get(), here)?;
            Ok(None)
        }
        Operand::Override(written) => {
            override_of(forms, world, written.get(), here)?;
            Ok(None)
        }
        Operand::Defaults(written) => {
            defaults_of(forms, world, written.get(), here)?;
            Ok(None)
        }
    }
}

/// The text that statements emit. What was emitted before is put apart meanwhile.
#[tactic(auto, unfolding(crate::specs::Statements::emitted_rule))]
pub fn emitted<F: Fn(&mut World<'_>, Goal<'_>, Here, u32) -> Result<Evaluated, Stop>, M: Meaning>(
    forms: &Forms<F, M>,
    world: &mut World<'_>,
    statements: &Block,
    own: Here,
) -> Result<Text, Stop>
    requires { Nests (M.within forms.now.left) forms.now.left (F.pre forms.now.inner) (F.post forms.now.inner) }
    ensures { Gives (λ t. text t) (spec.emitted_rule (M.within forms.now.left) statements.now own world.old) result
        world.new }
{
    let before = world.begin_rendering();
    drop(block(forms, world, statements, own)?);
    Ok(world.end_rendering(before).into_text())
}
