//! The look-up of a key.
ghost use Rattle.std.specs.Prelude.{◌≡◌, option_map};
ghost use Rattle.hiera_config.specs.Variables.{in_scope};
ghost use Rattle.hiera_lookup.specs.Finds.{Finds, Stops};
ghost use Rattle.hiera_lookup.specs.Look.{looked_up};
ghost use Rattle.hiera_lookup.specs.World.{world_of};

use crate::looking::look;
use crate::world::World;
use hiera_config::{Refused, SiteData, Variables, module_of};
use hiera_merge::Merge;
use pp_values::{Fault, Place, Stop, Text, Texts, Value};
use scope_core::{ScopeId, Scopes};
use std::alloc::Global;

/// Look-ups stand within one another at most this many deep.
pub const LIMIT: u64 = 200;

/// The value of a key in the layers of the data, by the merge, or the one that `lookup_options` gives for the key.
/// None where no source has it. Variables are read in the scope; a fault stands at the place.
pub fn lookup(
    alloc: Global,
    store: &SiteData,
    scopes: &Scopes,
    scope: ScopeId,
    key: &Text,
    merge: Option<Merge>,
    at: &Place,
) -> Result<Option<Value>, Stop>
    ensures { Finds at.now result
        (looked_up (world_of store.now (in_scope scope.number scopes.now)) key.now merge) }
{
    let variables = Variables::in_scope(scopes, scope);
    let world = World {
        data: store,
        variables,
    };
    let key = key.as_str();
    match look(
        alloc,
        &world,
        &Texts::new(alloc),
        module_of(key),
        key,
        merge,
        LIMIT,
    ) {
        Ok(looked) => Ok(looked.value),
        Err(refused) => Err(stop_at(alloc, at, refused)),
    }
}

fn stop_at(alloc: Global, at: &Place, refused: Refused) -> Stop
    ensures { Stops at.now refused result }
{
    match refused {
        Refused::Fault(what) => match at.copy(alloc) {
            Ok(at) => Stop::Fault(Fault { at, what }),
            Err(_) => Stop::Memory,
        },
        Refused::Memory => Stop::Memory,
    }
}
