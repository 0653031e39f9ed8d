//! One function for each way in which a command is run, by the command.
ghost use Rattle.site_words.specs.Asked.{IsWithin};
ghost use Rattle.site_words.specs.Reading.{asked_by};
ghost use Rattle.site_commands.specs.Endings.{Ends, IsPlain, IsShared};
ghost use Rattle.site_commands.specs.World.{world};

use crate::applying::run_apply;
use crate::commands::{
    run_audit, run_batch, run_check, run_compile, run_demo, run_lookup, run_manifest, run_migrate,
    run_resume, run_sequence, run_settle,
};
use crate::ending::Ending;
use crate::going_on::run_serve_on;
use crate::serving::run_serve;
use agent_machine::WideMachine;
use site_io::{Gate, Listener, Sink, Source, Tree};
use site_words::Command;
use std::alloc::Global;
use std::sync::Wait;
use std::thread::Threads;

/// Runs a command that waits for nobody.
pub fn run_plain<S: Source, K: Sink, E: Sink, T: Tree, M: WideMachine, R: Threads>(
    rt: &R,
    alloc: Global,
    command: Command<'_>,
    source: &mut S,
    out: &mut K,
    err: &mut E,
    tree: &mut T,
    machine: &mut M,
) -> Ending
where
    M::Part: Drop + 'static,
    requires plain { IsPlain (asked_by command) }
    requires within { IsWithin (asked_by command) }
    ensures { (n : _) → Ends result (asked_by command.entry)
        (world (S.stream source.old) (K.stream out.old) (E.stream err.old) n (T.folder tree.old)
        (M.Machine.state machine.old))
        (world (S.stream source.new) (K.stream out.new) (E.stream err.new) n (T.folder tree.new)
        (M.Machine.state machine.new)) }
{
    match command {
        Command::Manifest { node } => run_manifest(alloc, node, source, out, err),
        Command::Check { dir } => run_check(rt, alloc, dir, source, out, err, tree),
        Command::Compile { node, dir } => run_compile(rt, alloc, node, dir, source, out, err, tree),
        Command::Sequence => run_sequence(rt, alloc, source, out, err),
        Command::Lookup {
            node,
            key,
            merge,
            dir,
        } => run_lookup(rt, alloc, node, key, merge, dir, source, out, err, tree),
        Command::Apply { node, dir, workers } => run_apply(
            rt, alloc, node, dir, workers, source, out, err, tree, machine,
        ),
        Command::Demo { nodes } => run_demo(alloc, nodes, out, err),
        Command::Audit => run_audit(alloc, source, out, err),
        Command::Migrate => run_migrate(alloc, source, out, err),
        Command::Batch { .. }
        | Command::Serve { .. }
        | Command::ServeOn { .. }
        | Command::Resume { .. }
        | Command::Settle { .. } => unreachable!(),
    }
}

/// Runs a command that may wait.
pub fn run_shared<
    S: Source,
    K: Sink,
    E: Sink,
    N: Listener,
    T: Tree,
    G: Gate + Sync,
    R: Threads + Wait + Sync,
>(
    rt: &R,
    alloc: Global,
    command: Command<'_>,
    source: &mut S,
    out: &mut K,
    err: &mut E,
    net: &mut N,
    tree: &mut T,
    gate: &G,
) -> Ending
where
    N::Conn: Send + Drop,
    requires shared { IsShared (asked_by command) }
    requires within { IsWithin (asked_by command) }
    ensures { (m : _) → Ends result (asked_by command.entry)
        (world (S.stream source.old) (K.stream out.old) (E.stream err.old) (N.net net.old) (T.folder tree.old) m)
        (world (S.stream source.new) (K.stream out.new) (E.stream err.new) (N.net net.new) (T.folder tree.new) m) }
{
    match command {
        Command::Batch { workers } => run_batch(rt, alloc, workers, source, out, err, gate),
        Command::Serve { port, count, dir } => {
            run_serve(rt, alloc, port, count, dir, out, err, net, tree, gate)
        }
        Command::ServeOn { port, count } => {
            run_serve_on(rt, alloc, port, count, source, out, err, net, gate)
        }
        Command::Resume { workers } => run_resume(rt, alloc, workers, source, out, err, gate),
        Command::Settle { rounds, workers } => {
            run_settle(rt, alloc, rounds, workers, source, out, err, gate)
        }
        Command::Manifest { .. }
        | Command::Check { .. }
        | Command::Compile { .. }
        | Command::Sequence
        | Command::Lookup { .. }
        | Command::Apply { .. }
        | Command::Demo { .. }
        | Command::Audit
        | Command::Migrate => unreachable!(),
    }
}
