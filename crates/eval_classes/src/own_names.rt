//! The variables that the body of a class or of an instance has by itself.
ghost use Rattle.std.specs.Prelude.{◌≡◌, IfOk};
ghost use Rattle.eval_classes.specs.OwnNames as spec;
ghost use Rattle.eval_world.specs.Outcomes.{Gives, nothing};
ghost use Rattle.pp_values.specs.Datum as d;

use crate::listed::Listed;
use eval_world::{Evaluated, World};
use pp_values::{Memory, Stop, Text, Value};
use std::alloc::Global;

/// Sets `title`, `name` and `module_name`, of a body that belongs to this module.
#[tactic(auto, unfolding(crate::specs::OwnNames::names_rule))]
pub fn set_names(world: &mut World<'_>, title: &Text, home: &Text, body: Listed) -> Result<(), Stop>
    ensures { Gives nothing (spec.names_rule title.now home.now body.line body.here world.old) result world.new }
{
    set_name(world, "title", title, body)?;
    set_name(world, "name", title, body)?;
    set_name(world, "module_name", home, body)
}

fn set_name(world: &mut World<'_>, name: &str, text: &Text, body: Listed) -> Result<(), Stop>
    ensures { Gives nothing (spec.name_rule name.now text.now body.line body.here world.old) result world.new }
{
    let name = Text::from_str(world.heap.alloc(), name)?;
    let text = text_value(world.heap.alloc(), text)?;
    world.assign(body.here, &name, text, body.line)
}

fn text_value(alloc: Global, text: &Text) -> Result<Evaluated, Memory>
    ensures { IfOk result (λ e. e ≡ d.text text.now) }
{
    Ok(Evaluated::new(Value::Text(text.copy(alloc)?)))
}
