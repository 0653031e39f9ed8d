ghost use Rattle.std.specs.Prelude.{◌≡◌, ◌<◌, ◌≤◌, length, IfOk};
ghost use Rattle.agent_marks.specs.Levels.{AreLevels};
ghost use Rattle.agent_transaction.specs.Marking.{planned_pair, AreBelow};
ghost use Rattle.rel_graph.specs.Before.{Before};
ghost use Rattle.rel_graph.specs.CatalogPairs.{containment as contained, relations as related};
ghost use Rattle.res_core.specs.Catalogs.{IsCatalog};
ghost use Rattle.wide_apply.specs.Going.{IsSorted};
ghost use Rattle.wide_apply.specs.WideCatalogs.{LinesGive, RunsWide};

use crate::taking::take_waves;
use crate::waves::{indexes_of, waves_of};
use agent_machine::{Report, ReportLines, WideMachine};
use agent_marks::Levels;
use agent_transaction::{Plan, Planned, Prepared, RunStop, containment, prepare, relations};
use pp_values::Memory;
use res_core::{Catalog, EdgeList, Held};
use std::alloc::Global;
use std::thread::Threads;

/// The turns by waves.
fn sorted(
    alloc: Global,
    count: u32,
    resources: &[Held],
    edges: &EdgeList,
    plan: Plan,
) -> Result<Vec<Vec<Planned>>, Memory>
    requires count { count ≡ length resources.now }
    requires kept { IsCatalog resources.now edges.now }
    requires below { AreBelow count plan }
    ensures { IfOk result (λ v. IsSorted (Before (contained resources.now) (related edges.now)) plan v.items) }
{
    let plan = plan.into_vec();
    let pairs = containment(alloc, resources)?;
    let related = relations(alloc, edges.as_slice())?;
    let indexes = indexes_of(alloc, plan.as_slice())?;
    let levels = Levels::new(
        alloc,
        count,
        pairs.as_slice(),
        related.as_slice(),
        indexes.as_slice(),
    )?;
    let waves = waves_of(alloc, plan, &levels)?;
    Ok(waves)
}

/// The lines of the run by waves, by rising indexes.
fn lines_by_waves<W: WideMachine, R: Threads>(
    rt: &R,
    alloc: Global,
    count: u32,
    resources: &[Held],
    edges: &EdgeList,
    workers: u32,
    machine: &mut W,
) -> Result<ReportLines, RunStop>
where
    W::Part: Drop + 'static,
    requires workers { 0 < workers }
    requires count { count ≡ length resources.now }
    requires kept { IsCatalog resources.now edges.now }
    ensures { LinesGive resources.now edges.now result (W.Machine.state machine.old) (W.Machine.state machine.new) }
{
    let Prepared {
        plan,
        blocked,
        signalled,
    } = prepare(alloc, count, resources, edges)?;
    let waves = sorted(alloc, count, resources, edges, plan)?;
    match take_waves(
        rt, alloc, count, waves, workers, blocked, signalled, machine,
    ) {
        Ok(lines) => Ok(lines),
        Err(Memory) => Err(RunStop::Memory),
    }
}

/// Applies a catalog to a machine by waves: of the resources that are left, those have their turns at once that none of
/// the others comes before. Up to `workers` turns are taken side by side, each on its own part of the machine.
pub fn run_wide<W: WideMachine, R: Threads>(
    rt: &R,
    alloc: Global,
    catalog: &Catalog,
    machine: &mut W,
    workers: u32,
) -> Result<Report, RunStop>
where
    W::Part: Drop + 'static,
    requires { (1 ≤ workers) × (workers ≤ 64) }
    ensures { RunsWide catalog.now result (W.Machine.state machine.old) (W.Machine.state machine.new) }
{
    let resources = catalog.resources().as_slice();
    let Ok(count) = u32::try_from(resources.len()) else {
        return Err(RunStop::Memory);
    };
    let node = catalog.node().copy(alloc)?;
    match lines_by_waves(
        rt,
        alloc,
        count,
        resources,
        catalog.edges(),
        workers,
        machine,
    ) {
        Ok(lines) => Ok(Report { node, lines }),
        Err(stop) => Err(stop),
    }
}
