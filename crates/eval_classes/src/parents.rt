//! The parents of classes.
ghost use Rattle.std.specs.Prelude.{◌≡◌, IfOk, IsTrue, Some};
ghost use Rattle.std.specs.Option.{option_copied};
ghost use Rattle.eval_classes.specs.Definitions as spec;

use crate::definitions::find;
use crate::found::Found;
use crate::names::normal_name;
use eval_world::Environment;
use pp_tree::{Class, Definition, Name};
use pp_values::{Memory, Text};
use std::alloc::Global;

/// The parent of the class of a name. One that inherits from itself, in any number of steps, counts as one without a
/// parent.
#[tactic(auto, unfolding(crate::specs::Definitions::parent_of))]
pub fn parent_of(
    alloc: Global,
    environment: &Environment<'_>,
    name: &Text,
    class: &Class,
) -> Result<Option<Text>, Memory>
    ensures { IfOk result (λ p. p ≡ spec.parent_of environment.now name.now class.now) }
{
    if inherits_itself(alloc, environment, name, class)? {
        return Ok(None);
    }
    written_parent(alloc, class)
}

fn inherits_itself(
    alloc: Global,
    environment: &Environment<'_>,
    name: &Text,
    class: &Class,
) -> Result<bool, Memory>
    ensures { IfOk result (λ b. b ≡ spec.inherits_itself environment.now name.now class.now) }
{
    let parent = written_parent(alloc, class)?;
    comes_to(alloc, environment, name, parent)
}

/// Whether one of these classes has this name: the first, its parent, and so on. One of those that were passed is
/// marked, a later one after twice as many turns, and a way that comes back to the mark has gone round.
#[tactic(auto, using(crate::proofs::Ways::begins, crate::proofs::Ways::further, crate::proofs::Ways::at_end, crate::proofs::Ways::met, crate::proofs::Ways::round, crate::proofs::Behind::none_marked, crate::proofs::Behind::marked, crate::proofs::Behind::mark_stays))]
fn comes_to(
    alloc: Global,
    environment: &Environment<'_>,
    name: &Text,
    first: Option<Text>,
) -> Result<bool, Memory>
    ensures { IfOk result (λ b. b ≡ spec.comes_to (spec.longest_way environment.now) environment.now name.now first) }
{
    let mut at = first;
    let mut mark = None;
    let mut next_mark = 0;
    for turn in 0..u64::MAX {
        let Some(here) = at else {
            return Ok(false);
        };
        if here == *name {
            return Ok(true);
        }
        if is_marked(&mark, &here) {
            return Ok(false);
        }
        at = parent_at(alloc, environment, &here)?;
        if turn >= next_mark {
            mark = Some(here);
            next_mark = turn.saturating_mul(2);
        }
    }
    // No memory holds so many classes.
    Err(Memory)
}

fn is_marked(mark: &Option<Text>, name: &Text) -> bool
    ensures { IsTrue result → (mark.now ≡ Some name.now) }
{
    match mark {
        Some(marked) => marked == name,
        None => false,
    }
}

fn parent_at(
    alloc: Global,
    environment: &Environment<'_>,
    name: &Text,
) -> Result<Option<Text>, Memory>
    ensures { IfOk result (λ p. p ≡ spec.parent_at environment.now name.now) }
{
    match class_in(find(alloc, environment, name)?) {
        Some(class) => written_parent(alloc, class),
        None => Ok(None),
    }
}

/// The class that was found, where it is one.
pub fn class_in(found: Found<'_>) -> Option<&Class>
    ensures { option_copied result ≡ spec.class_told (spec.told found.entry) }
{
    match found {
        Found::Definition(Definition::Class(class)) => Some(class),
        Found::Definition(_) | Found::Nothing | Found::Fault(_) => None,
    }
}

/// The name behind `inherits`.
fn written_parent(alloc: Global, class: &Class) -> Result<Option<Text>, Memory>
    ensures { IfOk result (λ p. p ≡ spec.written_parent class.now) }
{
    match &class.inherits {
        Some(Name { text, at: _ }) => Ok(Some(normal_name(alloc, text)?)),
        None => Ok(None),
    }
}
