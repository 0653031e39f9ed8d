//! `case`.
ghost use Rattle.std.specs.Prelude.{◌≡◌, IfOk};
ghost use Rattle.std.specs.List.{list_any};
ghost use Rattle.std.specs.Option.{option_copied};
ghost use Rattle.expr_eval.specs.Testing.{option_takes};
ghost use Rattle.pp_values.specs.Datum.{int};
ghost use Rattle.pp_values.specs.Views.{view, views};
ghost use Rattle.eval_forms.specs.Conditions as spec;
ghost use Rattle.eval_world.specs.Nests.{Nests};
ghost use Rattle.eval_world.specs.Outcomes.{Gives, same};
ghost use Rattle.eval_world.specs.Shapes.{is_default};

use eval_world::{Evaluated, Forms, Goal, Here, Meaning, World, is_default, is_splat};
use expr_eval::{option_takes, splice};
use pp_tree::{Args, Case, CaseOption, Expr};
use pp_values::{Items, Memory, Stop, Value};
use std::alloc::Global;

/// `case $a { 1, 2: { } default: { } }`. A block that stands too deep is refused at the line of the whole.
#[tactic(auto, unfolding(crate::specs::Conditions::case_rule))]
pub fn case_of<F: Fn(&mut World<'_>, Goal<'_>, Here, u32) -> Result<Evaluated, Stop>, M: Meaning>(
    forms: &Forms<F, M>,
    world: &mut World<'_>,
    choice: &Case,
    line: u32,
    here: Here,
) -> Result<Evaluated, Stop>
    requires { Nests (M.within forms.now.left) forms.now.left (F.pre forms.now.inner) (F.post forms.now.inner) }
    ensures { Gives same (spec.case_rule (M.within forms.now.left) choice.now line here world.old) result world.new }
{
    let control = forms.value(world, choice.control.get(), here)?;
    chosen(forms, world, &control, &choice.options, line, here)
}

/// The block of the first option that takes the control value, or else that of `default`.
#[tactic(auto, unfolding(crate::specs::Conditions::options_from))]
fn chosen<F: Fn(&mut World<'_>, Goal<'_>, Here, u32) -> Result<Evaluated, Stop>, M: Meaning>(
    forms: &Forms<F, M>,
    world: &mut World<'_>,
    control: &Evaluated,
    options: &Items<CaseOption>,
    line: u32,
    here: Here,
) -> Result<Evaluated, Stop>
    requires { Nests (M.within forms.now.left) forms.now.left (F.pre forms.now.inner) (F.post forms.now.inner) }
    ensures { Gives same (spec.options_from (M.within forms.now.left) control.now (spec.default_option options.now)
        options.now line here world.old) result world.new }
{
    let mut rest = options.as_slice();
    while let Some((option, more)) = rest.split_first() {
        if some_takes(forms, world, control, &option.values, here)? {
            return forms.block(world, &option.block, line, here);
        }
        rest = more;
    }
    otherwise(forms, world, default_option(options), line, here)
}

/// Whether some value of an option takes the control value. Those behind it are not evaluated.
#[tactic(auto, unfolding(crate::specs::Conditions::any_takes))]
fn some_takes<F: Fn(&mut World<'_>, Goal<'_>, Here, u32) -> Result<Evaluated, Stop>, M: Meaning>(
    forms: &Forms<F, M>,
    world: &mut World<'_>,
    control: &Evaluated,
    values: &Args,
    here: Here,
) -> Result<bool, Stop>
    requires { Nests (M.within forms.now.left) forms.now.left (F.pre forms.now.inner) (F.post forms.now.inner) }
    ensures { Gives same (spec.any_takes (M.within forms.now.left) control.now values.now here world.old)
        result world.new }
{
    let mut rest = values.as_slice();
    while let Some((value, more)) = rest.split_first() {
        if takes(forms, world, control, value, here)? {
            return Ok(true);
        }
        rest = more;
    }
    Ok(false)
}

/// Whether one value of an option does. The word `default` does not: it is taken last.
#[tactic(auto, unfolding(crate::specs::Conditions::takes_rule))]
fn takes<F: Fn(&mut World<'_>, Goal<'_>, Here, u32) -> Result<Evaluated, Stop>, M: Meaning>(
    forms: &Forms<F, M>,
    world: &mut World<'_>,
    control: &Evaluated,
    expr: &Expr,
    here: Here,
) -> Result<bool, Stop>
    requires { Nests (M.within forms.now.left) forms.now.left (F.pre forms.now.inner) (F.post forms.now.inner) }
    ensures { Gives same (spec.takes_rule (M.within forms.now.left) control.now expr.now here world.old)
        result world.new }
{
    if is_default(expr) {
        return Ok(false);
    }
    if let Some(number) = forms.number(expr) {
        return Ok(number_takes(number, control.as_value()));
    }
    let option = forms.value(world, expr, here)?;
    Ok(value_takes(world.heap.alloc(), is_splat(expr), &option, control)?)
}

/// Whether an integer does: it takes itself alone.
fn number_takes(number: i64, control: &Value) -> bool
    ensures { result ≡ option_takes (int number) (view control.now) }
{
    match control {
        Value::Int(control) => number == *control,
        _ => false,
    }
}

/// Whether the value takes the control value, or where it is spliced one of its members.
fn value_takes(
    alloc: Global,
    is_spliced: bool,
    option: &Evaluated,
    control: &Evaluated,
) -> Result<bool, Memory>
    ensures { IfOk result (λ b. b ≡ spec.value_takes is_spliced option.now control.now) }
{
    if is_spliced {
        let members = splice(alloc, option.as_value())?;
        return Ok(members_take(members.as_slice(), control.as_value()));
    }
    Ok(option_takes(option.as_value(), control.as_value()))
}

fn members_take(members: &[Value], control: &Value) -> bool
    ensures { result ≡ list_any (λ d. option_takes d (view control.now)) (views members.now) }
{
    for member in members {
        if option_takes(member, control) {
            return true;
        }
    }
    false
}

/// The block of the option for what no option takes, where there is one.
#[tactic(auto, unfolding(crate::specs::Conditions::default_rule))]
fn otherwise<F: Fn(&mut World<'_>, Goal<'_>, Here, u32) -> Result<Evaluated, Stop>, M: Meaning>(
    forms: &Forms<F, M>,
    world: &mut World<'_>,
    option: Option<&CaseOption>,
    line: u32,
    here: Here,
) -> Result<Evaluated, Stop>
    requires { Nests (M.within forms.now.left) forms.now.left (F.pre forms.now.inner) (F.post forms.now.inner) }
    ensures { Gives same (spec.default_rule (M.within forms.now.left) (option_copied option.entry) line here world.old)
        result world.new }
{
    match option {
        Some(option) => forms.block(world, &option.block, line, here),
        None => Ok(Evaluated::new(Value::Undef)),
    }
}

/// The first option with the word `default`.
#[tactic(auto, unfolding(crate::specs::Conditions::default_option))]
fn default_option(options: &Items<CaseOption>) -> Option<&CaseOption>
    ensures { option_copied result ≡ spec.default_option options.now }
{
    options
        .as_slice()
        .iter()
        .find(|option| has_default(&option.values))
}

fn has_default(values: &Args) -> bool
    ensures { result ≡ list_any is_default values.now }
{
    values.as_slice().iter().any(|value| is_default(value))
}
