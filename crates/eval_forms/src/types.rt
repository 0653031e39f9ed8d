//! Types as values.
ghost use Rattle.eval_forms.specs.Types as spec;
ghost use Rattle.eval_world.specs.Outcomes.{Gives, same};

use eval_world::{Evaluated, Here, World};
use expr_eval::type_value;
use pp_types::is_type_name;
use pp_values::{Stop, Text, What};

/// `Integer` or `Ntp::Server`: the type without arguments. Where a tree has a name here that no text of the grammar
/// has, that is F1.
#[tactic(auto, unfolding(crate::specs::Types::type_rule))]
pub fn type_of(world: &World<'_>, name: &Text, line: u32, here: Here) -> Result<Evaluated, Stop>
    ensures { Gives same (spec.type_rule name.now line here world.now) result world.now }
{
    if !is_type_name(name.as_str()) {
        return Err(Stop::Fault(world.fault(here, line, What::Syntax)?));
    }
    let at = world.place(here, line)?;
    Ok(Evaluated::new(type_value(world.heap.alloc(), name, &at)?))
}
