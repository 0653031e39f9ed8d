//! Names of types, by where they stand.
ghost use Rattle.std.specs.Prelude.{None};
ghost use Rattle.pp_types.specs.Names.{bare_name, data_type_named};
ghost use Rattle.class_eval.specs.TypeNames as spec;
ghost use Rattle.eval_world.specs.Outcomes.{Gives, nothing, same};

use eval_classes::normal_name;
use eval_forms::type_of;
use eval_resources::check_kind;
use eval_world::{Evaluated, Here, World};
use pp_types::{bare_name, data_type_named};
use pp_values::{Stop, Text};

/// What the name of a type gives. Within the type of a parameter a kind that it names has to be there, else F5.
#[tactic(auto, unfolding(crate::specs::TypeNames::type_named_rule))]
pub fn type_named(world: &World<'_>, name: &Text, line: u32, here: Here) -> Result<Evaluated, Stop>
    ensures { Gives same (spec.type_named_rule name.now line here world.now) result world.now }
{
    if here.typed {
        check_there(world, name, line, here)?;
    }
    type_of(world, name, line, here)
}

/// A name that is no data type's is that of a kind, which is looked for.
fn check_there(world: &World<'_>, name: &Text, line: u32, here: Here) -> Result<(), Stop>
    ensures { Gives nothing (spec.there_by (data_type_named (bare_name name.now)) name.now line here world.now) result
        world.now }
{
    match data_type_named(bare_name(name.as_str())) {
        Some(_) => Ok(()),
        None => check_kind_there(world, name, line, here),
    }
}

fn check_kind_there(world: &World<'_>, name: &Text, line: u32, here: Here) -> Result<(), Stop>
    ensures { Gives nothing (spec.there_by None name.now line here world.now) result world.now }
{
    let alloc = world.heap.alloc();
    let at = world.place(here, line)?;
    let kind = normal_name(alloc, name)?;
    let _known = check_kind(alloc, &world.environment, &kind, &at)?;
    Ok(())
}
