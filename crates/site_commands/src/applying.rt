//! A node's catalog, applied to a machine.
ghost use Rattle.std.specs.Prelude.{◌≡◌, ◌≤◌, Err, None, Option, Result, Some, IfOk, IfSome, option_map};
ghost use Rattle.command_outputs.specs.Nodes.{CompilesNode};
ghost use Rattle.rel_graph.specs.CatalogPairs.{IsAcyclic};
ghost use Rattle.site_words.specs.Asked as asked;
ghost use Rattle.word_rules.specs.declared.limits.TheConstants.{MOST_WORKERS};
ghost use Rattle.site_commands.specs.Applying.{Applies, AppliesCatalog, AppliesMeant, EndsRun, HasRunLoaded, OrLacks, RunsOn};
ghost use Rattle.site_commands.specs.Endings.{Ends};
ghost use Rattle.site_commands.specs.World.{world};

use crate::commands::BUNDLE;
use crate::delivering::{deliver, write_log};
use crate::ending::Ending;
use crate::giving_up::{give_up, refuse};
use crate::input::take_bundle;
use crate::telling::tell_run;
use agent_machine::{Machine, MachineDoc, Report, WideMachine};
use agent_transaction::{RunStop, run_catalog};
use command_outputs::{NodeStop, compile_node, refuse_node};
use pp_values::Memory;
use res_core::Catalog;
use site_bundle::Bundle;
use site_docs::log_text;
use site_io::{Sink, Source, Tree};
use std::alloc::Global;
use std::thread::Threads;
use wide_apply::run_wide;

/// Reads the bundle, applies the catalog of a node to its machine, and writes what came of it.
///
/// Without a number of workers one resource has its turn after another; with it those have their turns side by side
/// that nothing left comes before.
pub fn run_apply<S: Source, K: Sink, E: Sink, T: Tree, M: WideMachine, R: Threads>(
    rt: &R,
    alloc: Global,
    node: &str,
    dir: Option<&str>,
    workers: Option<u32>,
    source: &mut S,
    out: &mut K,
    err: &mut E,
    tree: &mut T,
    machine: &mut M,
) -> Ending
where
    M::Part: Drop + 'static,
    requires { IfSome workers (λ n. (1 ≤ n) × (n ≤ MOST_WORKERS)) }
    ensures { (n : _) → Ends result (asked.apply node.now (option_map (λ d. d.now) dir.entry) workers)
        (world (S.stream source.old) (K.stream out.old) (E.stream err.old) n (T.folder tree.old)
        (M.Machine.state machine.old))
        (world (S.stream source.new) (K.stream out.new) (E.stream err.new) n (T.folder tree.new)
        (M.Machine.state machine.new)) }
{
    match take_bundle(rt, alloc, dir, source, tree) {
        Ok(bundle) => apply(rt, alloc, node, bundle, workers, out, err, machine),
        Err(stop) => give_up(&stop, BUNDLE, err),
    }
}

/// Applies the catalog of a node to the machine of the bundle, and writes what came of it.
pub fn apply<K: Sink, E: Sink, M: WideMachine, R: Threads>(
    rt: &R,
    alloc: Global,
    node: &str,
    bundle: Bundle,
    workers: Option<u32>,
    out: &mut K,
    err: &mut E,
    machine: &mut M,
) -> Ending
where
    M::Part: Drop + 'static,
    requires { IfSome workers (λ n. (1 ≤ n) × (n ≤ MOST_WORKERS)) }
    ensures { Applies result workers node.now bundle (K.stream out.old) (K.stream out.new) (E.stream err.old)
        (E.stream err.new) (M.Machine.state machine.old) (M.Machine.state machine.new) }
{
    let Bundle {
        site,
        requests: _,
        machine: document,
    } = bundle;
    let compiled = compile_node(alloc, &site, node);
    apply_compiled(
        rt, alloc, node, compiled, document, workers, out, err, machine,
    )
}

/// Applies the catalog, if the node has one, and writes what came of it.
fn apply_compiled<K: Sink, E: Sink, M: WideMachine, R: Threads>(
    rt: &R,
    alloc: Global,
    node: &str,
    compiled: Result<Catalog, NodeStop>,
    document: MachineDoc,
    workers: Option<u32>,
    out: &mut K,
    err: &mut E,
    machine: &mut M,
) -> Ending
where
    M::Part: Drop + 'static,
    requires workers { IfSome workers (λ n. (1 ≤ n) × (n ≤ MOST_WORKERS)) }
    requires free { IfOk compiled (λ c. IsAcyclic c.resources c.edges) }
    ensures { (meant : _) → CompilesNode compiled meant → OrLacks (AppliesMeant workers node.now meant document
        (K.stream out.old) (K.stream out.new) (E.stream err.old) (E.stream err.new) (M.Machine.state machine.old)
        (M.Machine.state machine.new)) result (K.stream out.old) (K.stream out.new) (E.stream err.old)
        (E.stream err.new)
        (M.Machine.state machine.old) (M.Machine.state machine.new) }
{
    match compiled {
        Ok(catalog) => apply_catalog(rt, alloc, &catalog, document, workers, out, err, machine),
        Err(stop) => tell_refusal(alloc, node, &stop, out, err),
    }
}

/// Writes why the node has no catalog.
fn tell_refusal<K: Sink, E: Sink>(
    alloc: Global,
    node: &str,
    stop: &NodeStop,
    out: &mut K,
    err: &mut E,
) -> Ending
    ensures { (workers : _) (meant : _) (document : _) (m : _) → CompilesNode (Err stop.now) meant →
        OrLacks (AppliesMeant workers node.now meant document (K.stream out.old) (K.stream out.new) (E.stream err.old)
        (E.stream err.new) m m) result (K.stream out.old) (K.stream out.new) (E.stream err.old) (E.stream err.new) m m }
{
    match refuse_node(alloc, node, stop) {
        Ok(output) => deliver(&output, out, err),
        Err(_) => refuse(err, Ending::Memory, "memory\n"),
    }
}

/// Writes the log, then applies the catalog, and writes what came of it.
fn apply_catalog<K: Sink, E: Sink, M: WideMachine, R: Threads>(
    rt: &R,
    alloc: Global,
    catalog: &Catalog,
    document: MachineDoc,
    workers: Option<u32>,
    out: &mut K,
    err: &mut E,
    machine: &mut M,
) -> Ending
where
    M::Part: Drop + 'static,
    requires workers { IfSome workers (λ n. (1 ≤ n) × (n ≤ MOST_WORKERS)) }
    requires free { IsAcyclic catalog.now.resources catalog.now.edges }
    ensures { OrLacks (λ ending. AppliesCatalog ending workers catalog.now document (K.stream out.old)
        (K.stream out.new)
        (E.stream err.old) (E.stream err.new) (M.Machine.state machine.old) (M.Machine.state machine.new)) result
        (K.stream out.old) (K.stream out.new) (E.stream err.old) (E.stream err.new) (M.Machine.state machine.old)
        (M.Machine.state machine.new) }
{
    match log_text(alloc, catalog.log()) {
        Ok(log) => match write_log(err, log.as_str()) {
            Ok(()) => run_on(rt, alloc, catalog, document, workers, out, err, machine),
            Err(_) => Ending::WriteFault,
        },
        Err(_) => refuse(err, Ending::Memory, "memory\n"),
    }
}

/// Loads the document and applies the catalog, and writes what came of it.
fn run_on<K: Sink, E: Sink, M: WideMachine, R: Threads>(
    rt: &R,
    alloc: Global,
    catalog: &Catalog,
    document: MachineDoc,
    workers: Option<u32>,
    out: &mut K,
    err: &mut E,
    machine: &mut M,
) -> Ending
where
    M::Part: Drop + 'static,
    requires workers { IfSome workers (λ n. (1 ≤ n) × (n ≤ MOST_WORKERS)) }
    requires free { IsAcyclic catalog.now.resources catalog.now.edges }
    ensures { RunsOn result workers catalog.now document (K.stream out.old) (K.stream out.new) (E.stream err.old)
        (E.stream err.new) (M.Machine.state machine.old) (M.Machine.state machine.new) }
{
    machine.load(document);
    run_loaded(rt, alloc, catalog, workers, out, err, machine)
}

/// Applies the catalog, and writes what came of it.
fn run_loaded<K: Sink, E: Sink, M: WideMachine, R: Threads>(
    rt: &R,
    alloc: Global,
    catalog: &Catalog,
    workers: Option<u32>,
    out: &mut K,
    err: &mut E,
    machine: &mut M,
) -> Ending
where
    M::Part: Drop + 'static,
    requires workers { IfSome workers (λ n. (1 ≤ n) × (n ≤ MOST_WORKERS)) }
    requires free { IsAcyclic catalog.now.resources catalog.now.edges }
    ensures { HasRunLoaded result workers catalog.now (M.Machine.state machine.old) (K.stream out.old)
        (K.stream out.new)
        (E.stream err.old) (E.stream err.new) (M.Machine.state machine.new) }
{
    match run_by(rt, alloc, catalog, workers, machine) {
        Ok(report) => tell_run(alloc, &report, machine, out, err),
        Err(_) => refuse(err, Ending::Memory, "memory\n"),
    }
}

/// Applies the catalog, by waves where a number of workers is said.
fn run_by<M: WideMachine, R: Threads>(
    rt: &R,
    alloc: Global,
    catalog: &Catalog,
    workers: Option<u32>,
    machine: &mut M,
) -> Result<Report, Memory>
where
    M::Part: Drop + 'static,
    requires workers { IfSome workers (λ n. (1 ≤ n) × (n ≤ MOST_WORKERS)) }
    requires free { IsAcyclic catalog.now.resources catalog.now.edges }
    ensures { EndsRun workers catalog.now result (M.Machine.state machine.old) (M.Machine.state machine.new) }
{
    match workers {
        None => run_in_turn(alloc, catalog, machine),
        Some(workers) => run_in_waves(rt, alloc, catalog, machine, workers),
    }
}

/// Applies the catalog, one resource after another.
fn run_in_turn<M: Machine>(
    alloc: Global,
    catalog: &Catalog,
    machine: &mut M,
) -> Result<Report, Memory>
    requires { IsAcyclic catalog.now.resources catalog.now.edges }
    ensures { EndsRun None catalog.now result (M.state machine.old) (M.state machine.new) }
{
    match run_catalog(alloc, catalog, machine) {
        Ok(report) => Ok(report),
        Err(RunStop::Memory) => Err(Memory),
        Err(RunStop::Cycle(_)) => unreachable!(),
    }
}

/// Applies the catalog by waves.
fn run_in_waves<M: WideMachine, R: Threads>(
    rt: &R,
    alloc: Global,
    catalog: &Catalog,
    machine: &mut M,
    workers: u32,
) -> Result<Report, Memory>
where
    M::Part: Drop + 'static,
    requires workers { (1 ≤ workers) × (workers ≤ MOST_WORKERS) }
    requires free { IsAcyclic catalog.now.resources catalog.now.edges }
    ensures { EndsRun (Some workers) catalog.now result (M.Machine.state machine.old) (M.Machine.state machine.new) }
{
    match run_wide(rt, alloc, catalog, machine, workers) {
        Ok(report) => Ok(report),
        Err(RunStop::Memory) => Err(Memory),
        Err(RunStop::Cycle(_)) => unreachable!(),
    }
}
