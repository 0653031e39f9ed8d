//! Classes that are declared from outside.
ghost use Rattle.std.specs.Prelude.{◌≡◌, IfOk};
ghost use Rattle.class_eval.specs.Evaluating as spec;
ghost use Rattle.class_eval.specs.Meaning.{within};
ghost use Rattle.eval_world.specs.Outcomes.{Gives, nothing, same};
ghost use Rattle.pp_values.specs.Answers.{Answers};

use crate::knot::{AllForms, evaluate};
use eval_classes::{
    class_found, class_reference, declare_class, declare_once, normal_name, param_names,
};
use eval_resources::check_attributes;
use eval_world::{Forms, Here, World};
use pp_tree::Class;
use pp_values::{Memory, Place, Stop, Text};
use res_core::{Attributes, KnownNames};
use std::alloc::Global;
use std::marker::PhantomData;

/// Declares the class of a name, where so many levels are left.
#[tactic(auto, unfolding(crate::specs::Evaluating::class_within))]
pub fn class_at(
    world: &mut World<'_>,
    name: &Text,
    given: Option<Attributes>,
    here: Here,
    at: &Place,
    left: u32,
) -> Result<u32, Stop>
    ensures { Gives same (spec.class_within (within left) name.now given at.now here world.old) result world.new }
{
    let alloc = world.heap.alloc();
    let name = normal_name(alloc, name)?;
    let class = class_found(alloc, &world.environment, &name, at)?;
    declare(world, class, given, here, at, left)?;
    Ok(number_of(world, class)?)
}

fn declare<'a>(
    world: &mut World<'a>,
    class: &'a Class,
    given: Option<Attributes>,
    here: Here,
    at: &Place,
    left: u32,
) -> Result<(), Stop>
    ensures { Gives nothing (spec.class_given (within left) class.now given at.now here world.old) result world.new }
{
    let forms: Forms<_, AllForms> = Forms {
        left,
        inner: evaluate,
        meaning: PhantomData,
    };
    match given {
        None => declare_once(&forms, world, class, at, here.owner),
        Some(given) => {
            check_given(world.heap.alloc(), class, &given, at)?;
            declare_class(&forms, world, class, &given, at, here.owner)
        }
    }
}

fn number_of(world: &World<'_>, class: &Class) -> Result<u32, Memory>
    ensures { IfOk result (λ n. n ≡ spec.number_in class.now world.now) }
{
    let name = normal_name(world.heap.alloc(), &class.name.text)?;
    let reference = class_reference(world.heap.alloc(), &name)?;
    match world.book.find(&reference) {
        Some(number) => Ok(number),
        None => Ok(0),
    }
}

/// F10 at the first name that the class does not take.
fn check_given(alloc: Global, class: &Class, given: &Attributes, at: &Place) -> Result<(), Stop>
    ensures { Answers result (spec.given_checked class.now given.now at.now) }
{
    let name = normal_name(alloc, &class.name.text)?;
    let what = class_reference(alloc, &name)?;
    let known = KnownNames::listed(param_names(alloc, class.params.as_slice())?);
    check_attributes(alloc, &what, &known, at, given.as_slice())
}
