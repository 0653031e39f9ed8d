//! Selectors.
ghost use Rattle.std.specs.Prelude.{◌≡◌};
ghost use Rattle.std.specs.Option.{option_copied};
ghost use Rattle.eval_forms.specs.Selectors as spec;
ghost use Rattle.eval_world.specs.Nests.{Nests};
ghost use Rattle.eval_world.specs.Outcomes.{Gives, same};

use crate::answering::bad_operand;
use eval_world::{Evaluated, Forms, Goal, Here, Meaning, World, is_default};
use expr_eval::option_takes;
use pp_tree::{Expr, Pair};
use pp_values::{Items, Stop};

/// `? { 1 => 'a', default => 'b' }` behind a value that is there: the value of the first option that takes it, or else
/// that of `default`. No other value is evaluated.
#[tactic(auto, unfolding(crate::specs::Selectors::selected_rule, crate::specs::Selectors::selected_from))]
pub fn selected<F: Fn(&mut World<'_>, Goal<'_>, Here, u32) -> Result<Evaluated, Stop>, M: Meaning>(
    forms: &Forms<F, M>,
    world: &mut World<'_>,
    control: Evaluated,
    options: &Items<Pair>,
    line: u32,
    here: Here,
) -> Result<Evaluated, Stop>
    requires { Nests (M.within forms.now.left) forms.now.left (F.pre forms.now.inner) (F.post forms.now.inner) }
    ensures { Gives same (spec.selected_rule (M.within forms.now.left) control options.now line here world.old)
        result world.new }
{
    let mut rest = options.as_slice();
    while let Some((option, more)) = rest.split_first() {
        if takes(forms, world, &control, &option.key, here)? {
            return forms.value(world, &option.value, here);
        }
        rest = more;
    }
    unselected(forms, world, default_pair(options), line, here)
}

/// Whether the key of an option takes the control value. The word `default` does not: it is taken last.
#[tactic(auto, unfolding(crate::specs::Selectors::key_rule))]
fn takes<F: Fn(&mut World<'_>, Goal<'_>, Here, u32) -> Result<Evaluated, Stop>, M: Meaning>(
    forms: &Forms<F, M>,
    world: &mut World<'_>,
    control: &Evaluated,
    key: &Expr,
    here: Here,
) -> Result<bool, Stop>
    requires { Nests (M.within forms.now.left) forms.now.left (F.pre forms.now.inner) (F.post forms.now.inner) }
    ensures { Gives same (spec.key_rule (M.within forms.now.left) control.now key.now here world.old) result world.new }
{
    if is_default(key) {
        return Ok(false);
    }
    let option = forms.value(world, key, here)?;
    Ok(option_takes(option.as_value(), control.as_value()))
}

/// The value of the option for what no option takes. Without one a selector is refused.
#[tactic(auto, unfolding(crate::specs::Selectors::unselected_rule))]
fn unselected<F: Fn(&mut World<'_>, Goal<'_>, Here, u32) -> Result<Evaluated, Stop>, M: Meaning>(
    forms: &Forms<F, M>,
    world: &mut World<'_>,
    option: Option<&Pair>,
    line: u32,
    here: Here,
) -> Result<Evaluated, Stop>
    requires { Nests (M.within forms.now.left) forms.now.left (F.pre forms.now.inner) (F.post forms.now.inner) }
    ensures { Gives same (spec.unselected_rule (M.within forms.now.left) (option_copied option.entry) line here
        world.old) result world.new }
{
    match option {
        Some(option) => forms.value(world, &option.value, here),
        None => Err(Stop::Fault(bad_operand(world, "?", line, here)?)),
    }
}

/// The first option whose key is the word `default`.
#[tactic(auto, unfolding(crate::specs::Selectors::default_pair))]
fn default_pair(options: &Items<Pair>) -> Option<&Pair>
    ensures { option_copied result ≡ spec.default_pair options.now }
{
    options
        .as_slice()
        .iter()
        .find(|option| is_default(&option.key))
}
