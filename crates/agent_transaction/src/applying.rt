//! A catalog is applied to a machine.
ghost use Rattle.std.specs.Prelude.{◌≡◌, MatchResult};
ghost use Rattle.agent_transaction.specs.Catalogs.{RunsCatalog};

use crate::prepared::{Prepared, prepare};
use crate::run_stop::RunStop;
use crate::running_all::run;
use agent_machine::{Machine, Report};
use pp_values::Memory;
use res_core::Catalog;
use std::alloc::Global;

/// Applies a catalog to a machine: each resource has its turn after all that come before it.
///
/// What the run itself needs is taken before its first call on the machine, so afterwards memory can be wanting for a
/// write alone, and then the machine is left as far as the run came.
pub fn run_catalog<M: Machine>(
    alloc: Global,
    catalog: &Catalog,
    machine: &mut M,
) -> Result<Report, RunStop>
    ensures { RunsCatalog catalog.now result (M.state machine.old) (M.state machine.new) }
{
    let resources = catalog.resources().as_slice();
    let Ok(count) = u32::try_from(resources.len()) else {
        return Err(RunStop::Memory);
    };
    let node = catalog.node().copy(alloc)?;
    let Prepared {
        plan,
        blocked,
        signalled,
    } = prepare(alloc, count, resources, catalog.edges())?;
    let room = Vec::with_capacity(alloc, plan.len())?;
    match run(plan, room, blocked, signalled, machine) {
        Ok(lines) => Ok(Report { node, lines }),
        Err(Memory) => Err(RunStop::Memory),
    }
}
