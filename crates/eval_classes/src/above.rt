//! The sources from which a source inherits.
ghost use Rattle.std.specs.Prelude.{◌≡◌, IfOk, option_map};
ghost use Rattle.eval_classes.specs.Above as spec;
ghost use Rattle.eval_classes.specs.Definitions.{longest_way};

use crate::definitions::find;
use crate::names::class_source;
use crate::parents::{class_in, parent_of};
use eval_world::{Environment, Owner};
use override_rules::Right;
use pp_values::{Memory, Text, Texts};
use std::alloc::Global;

/// What a line of an override may do that stands in the code of this owner.
pub fn right_of(
    alloc: Global,
    environment: &Environment<'_>,
    owner: &Owner,
) -> Result<Right, Memory>
    ensures { IfOk result (λ r. r ≡ spec.right_of environment.now owner.now) }
{
    let above = sources_above(alloc, environment, owner)?;
    Ok(Right::From(owner.source.copy(alloc)?, above))
}

/// The sources from which that of this owner inherits, from the nearest on. Only that of a class does.
#[tactic(auto, unfolding(crate::specs::Above::sources_above))]
pub fn sources_above(
    alloc: Global,
    environment: &Environment<'_>,
    owner: &Owner,
) -> Result<Texts, Memory>
    ensures { IfOk result (λ ts. ts ≡ spec.sources_above environment.now owner.now) }
{
    match class_in_source(owner.source.as_str()) {
        Some(name) => above_class(alloc, environment, name),
        None => Ok(Texts::new(alloc)),
    }
}

/// The class that a source names.
fn class_in_source(source: &str) -> Option<&str>
    ensures { option_map (λ name. name.now) result ≡ spec.class_in source.now }
{
    source.strip_prefix("class ")
}

fn above_class(alloc: Global, environment: &Environment<'_>, name: &str) -> Result<Texts, Memory>
    ensures { IfOk result (λ ts. ts ≡ spec.sources_from (longest_way environment.now) environment.now
        (spec.parent_named environment.now name.now)) }
{
    let name = Text::from_str(alloc, name)?;
    let parent = parent_named(alloc, environment, &name)?;
    sources_from(alloc, environment, parent)
}

/// The sources of this class and of its parents.
#[tactic(auto, unfolding(crate::specs::Above::sources_from), using(crate::proofs::Upward::begins, crate::proofs::Upward::one_more, crate::proofs::Upward::at_end))]
fn sources_from(
    alloc: Global,
    environment: &Environment<'_>,
    first: Option<Text>,
) -> Result<Texts, Memory>
    ensures { IfOk result (λ ts. ts ≡ spec.sources_from (longest_way environment.now) environment.now first) }
{
    let mut at = first;
    let mut sources = Texts::new(alloc);
    for _turn in 0..u64::MAX {
        let Some(name) = at else {
            return Ok(sources);
        };
        sources.push(class_source(alloc, &name)?)?;
        at = parent_named(alloc, environment, &name)?;
    }
    // No memory holds so many classes.
    Err(Memory)
}

/// The parent of the class of a name.
fn parent_named(
    alloc: Global,
    environment: &Environment<'_>,
    name: &Text,
) -> Result<Option<Text>, Memory>
    ensures { IfOk result (λ p. p ≡ spec.parent_named environment.now name.now) }
{
    match class_in(find(alloc, environment, name)?) {
        Some(class) => parent_of(alloc, environment, name, class),
        None => Ok(None),
    }
}
