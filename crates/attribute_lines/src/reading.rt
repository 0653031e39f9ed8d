//! The lines within braces.
ghost use Rattle.std.specs.Prelude.{◌≡◌, ◌∷◌, ◌++◌, [], IfOk};
ghost use Rattle.attribute_lines.specs.Reading as spec;
ghost use Rattle.eval_world.specs.Nests.{Nests};
ghost use Rattle.eval_world.specs.Outcomes.{Gives, same};
ghost use Rattle.pp_values.specs.Views.{pair_views, view};

use eval_world::{Evaluated, Forms, Goal, Here, Meaning, World};
use pp_tree::{Attribute, Attributes, Setting, Splat};
use pp_values::{Memory, Place, Stop, Text, Value, What, text_of};
use res_core::{Line, Lines};
use std::alloc::Global;

/// The lines of attributes with their values, in order: those of a splat stand in its place.
#[tactic(auto, unfolding(crate::specs::Reading::lines_from))]
pub fn lines<F: Fn(&mut World<'_>, Goal<'_>, Here, u32) -> Result<Evaluated, Stop>, M: Meaning>(
    forms: &Forms<F, M>,
    world: &mut World<'_>,
    done: Lines,
    attributes: &Attributes,
    here: Here,
) -> Result<Lines, Stop>
    requires { Nests (M.within forms.now.left) forms.now.left (F.pre forms.now.inner) (F.post forms.now.inner) }
    ensures { Gives same
        (spec.lines_from (M.within forms.now.left) done attributes.now here world.old) result world.new }
{
    let mut all = done;
    let mut rest = attributes.as_slice();
    while let Some((attribute, more)) = rest.split_first() {
        all = with_attribute(forms, world, all, attribute, here)?;
        rest = more;
    }
    Ok(all)
}

#[tactic(auto, unfolding(crate::specs::Reading::attribute_rule))]
fn with_attribute<
    F: Fn(&mut World<'_>, Goal<'_>, Here, u32) -> Result<Evaluated, Stop>,
    M: Meaning,
>(
    forms: &Forms<F, M>,
    world: &mut World<'_>,
    done: Lines,
    attribute: &Attribute,
    here: Here,
) -> Result<Lines, Stop>
    requires { Nests (M.within forms.now.left) forms.now.left (F.pre forms.now.inner) (F.post forms.now.inner) }
    ensures { Gives same
        (spec.attribute_rule (M.within forms.now.left) done attribute.now here world.old) result world.new }
{
    match attribute {
        Attribute::Set(setting) => with_setting(forms, world, done, setting, here),
        Attribute::Splat(splat) => with_splat(forms, world, done, splat, here),
    }
}

/// `mode => '0644'`
#[tactic(auto, unfolding(crate::specs::Reading::setting_rule))]
fn with_setting<F: Fn(&mut World<'_>, Goal<'_>, Here, u32) -> Result<Evaluated, Stop>, M: Meaning>(
    forms: &Forms<F, M>,
    world: &mut World<'_>,
    done: Lines,
    setting: &Setting,
    here: Here,
) -> Result<Lines, Stop>
    requires { Nests (M.within forms.now.left) forms.now.left (F.pre forms.now.inner) (F.post forms.now.inner) }
    ensures { Gives same
        (spec.setting_rule (M.within forms.now.left) done setting.now here world.old) result world.new }
{
    let value = forms.value(world, &setting.value, here)?;
    let at = world.place(here, setting.at)?;
    Ok(with_line(
        world.heap.alloc(),
        done,
        &setting.name,
        setting.append,
        value,
        at,
    )?)
}

/// One line more.
fn with_line(
    alloc: Global,
    mut done: Lines,
    name: &Text,
    append: bool,
    value: Evaluated,
    at: Place,
) -> Result<Lines, Memory>
    ensures { IfOk result (λ ls. ls ≡ done ++ spec.line name.now append value at ∷ []) }
{
    let name = name.copy(alloc)?;
    done.push(Line {
        name,
        append,
        value: value.into_value(),
        at,
    })?;
    Ok(done)
}

/// `* => $more`
#[tactic(auto, unfolding(crate::specs::Reading::splat_rule))]
fn with_splat<F: Fn(&mut World<'_>, Goal<'_>, Here, u32) -> Result<Evaluated, Stop>, M: Meaning>(
    forms: &Forms<F, M>,
    world: &mut World<'_>,
    done: Lines,
    splat: &Splat,
    here: Here,
) -> Result<Lines, Stop>
    requires { Nests (M.within forms.now.left) forms.now.left (F.pre forms.now.inner) (F.post forms.now.inner) }
    ensures { Gives same
        (spec.splat_rule (M.within forms.now.left) done splat.now here world.old) result world.new }
{
    let value = forms.value(world, &splat.value, here)?;
    with_splatted(world, done, value.as_value(), splat.at, here)
}

#[tactic(auto, using(crate::proofs::Back::pairs_back))]
fn with_splatted(
    world: &World<'_>,
    done: Lines,
    value: &Value,
    line: u32,
    here: Here,
) -> Result<Lines, Stop>
    ensures { Gives same (spec.splat_by done (view value.now) line here world.now) result world.now }
{
    match value {
        Value::Hash(pairs) => {
            let at = world.place(here, line)?;
            Ok(with_pairs(world.heap.alloc(), done, pairs.as_slice(), &at)?)
        }
        _ => {
            let operator = Text::from_str(world.heap.alloc(), "*")?;
            Err(Stop::Fault(world.fault(here, line, What::BadOperand(operator))?))
        }
    }
}

/// A line for each pair.
#[tactic(auto, unfolding(crate::specs::Reading::splatted))]
fn with_pairs(
    alloc: Global,
    done: Lines,
    pairs: &[(Value, Value)],
    at: &Place,
) -> Result<Lines, Memory>
    ensures { IfOk result (λ ls. ls ≡ spec.splatted done (pair_views pairs.now) at.now) }
{
    let mut all = done;
    let mut rest = pairs;
    while let Some((pair, more)) = rest.split_first() {
        all = with_pair(alloc, all, pair, at)?;
        rest = more;
    }
    Ok(all)
}

fn with_pair(alloc: Global, done: Lines, pair: &(Value, Value), at: &Place) -> Result<Lines, Memory>
    ensures { IfOk result (λ ls. ls
        ≡ spec.with_pair done (view pair.now.0) (view pair.now.1) at.now) }
{
    let name = text_of(alloc, &pair.0)?;
    let value = Evaluated::copy_of(alloc, &pair.1)?;
    let at = at.copy(alloc)?;
    with_line(alloc, done, &name, false, value, at)
}
