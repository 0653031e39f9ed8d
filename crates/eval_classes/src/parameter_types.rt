//! The types of parameters.
ghost use Rattle.std.specs.Prelude.{◌≡◌};
ghost use Rattle.eval_classes.specs.ParameterTypes as spec;
ghost use Rattle.eval_world.specs.Nests.{Nests};
ghost use Rattle.eval_world.specs.Outcomes.{Gives, same};
ghost use Rattle.pp_values.specs.Answers.{Answers};
ghost use Rattle.pp_values.specs.Views.{view};

use eval_world::{Evaluated, Forms, Goal, Here, Meaning, World};
use expr_eval::is_of;
use pp_tree::Expr;
use pp_values::{Fault, Place, Stop, Text, Value, What};
use std::alloc::Global;

/// Where the type of a parameter is evaluated that stands here.
fn within_type(own: Here) -> Here
    ensures { result ≡ spec.within_type own }
{
    Here {
        scope: own.scope,
        owner: own.owner,
        typed: true,
    }
}

/// Whether the value is of the type of a parameter, which is evaluated here.
#[tactic(auto, unfolding(crate::specs::ParameterTypes::has_type))]
pub fn has_type<F: Fn(&mut World<'_>, Goal<'_>, Here, u32) -> Result<Evaluated, Stop>, M: Meaning>(
    forms: &Forms<F, M>,
    world: &mut World<'_>,
    kind: &Expr,
    value: &Value,
    own: Here,
) -> Result<bool, Stop>
    requires { Nests (M.within forms.now.left) forms.now.left (F.pre forms.now.inner) (F.post forms.now.inner) }
    ensures { Gives same (spec.has_type (M.within forms.now.left) kind.now (view value.now) own world.old)
        result world.new }
{
    let of_kind = forms.value(world, kind, within_type(own))?;
    let at = world.place(own, kind.at)?;
    is_of(world.heap.alloc(), value, of_kind.as_value(), &at)
}

/// F8 at this place, unless the value of the parameter of this name is of its type.
pub fn accepted(alloc: Global, fits: bool, name: &Text, at: &Place) -> Result<(), Stop>
    ensures { Answers result (spec.accepted fits name.now at.now) }
{
    if fits {
        return Ok(());
    }
    let at = at.copy(alloc)?;
    let name = name.copy(alloc)?;
    Err(Stop::Fault(Fault::new(alloc, at, What::TypeMismatch(name))?))
}
