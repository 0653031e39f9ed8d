//! Where the body of an instance or a node is evaluated.
ghost use Rattle.eval_classes.specs.Entering as spec;
ghost use Rattle.eval_world.specs.Outcomes.{Gives, same};

use crate::body_owner::BodyOwner;
use eval_world::{Here, Owner, World};
use pp_values::Stop;
use scope_core::{ScopeId, ScopeKind};

/// Enters the scope of a body from one, with another one as its dynamic parent: the scope whose default statements hold
/// in it too.
#[tactic(auto, unfolding(crate::specs::Entering::enter_rule))]
pub fn enter_body(
    world: &mut World<'_>,
    kind: ScopeKind,
    parent: u32,
    outer: u32,
    owner: BodyOwner,
) -> Result<Here, Stop>
    ensures { Gives same (spec.enter_rule kind parent outer owner world.old) result world.new }
{
    let scope = world
        .scopes
        .enter(world.heap.alloc(), kind, ScopeId { number: parent })?;
    world.overrides.open_scope(scope.number, Some(outer))?;
    let owner = world.owners.add(Owner {
        file: owner.file,
        source: owner.source,
        resource: owner.resource,
        scope: scope.number,
    })?;
    Ok(Here {
        scope,
        owner,
        typed: false,
    })
}
