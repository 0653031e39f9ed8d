//! The commands that write texts.
ghost use Rattle.std.specs.Prelude.{◌≤◌, IfOk, IsTrue, length, option_map};
ghost use Rattle.command_outputs.specs.Resuming.{HasResumed};
ghost use Rattle.res_core.specs.AskedFacts.{give_facts};
ghost use Rattle.site_bundle.specs.declared.limits.TheConstants.{MOST_REQUESTS};
ghost use Rattle.site_core.specs.declared.history.TheConstants.{MOST_ENTRIES};
ghost use Rattle.site_words.specs.Asked as asked;
ghost use Rattle.word_rules.specs.declared.limits.TheConstants.{MOST_ROUNDS, MOST_WORKERS};
ghost use Rattle.site_commands.specs.Endings.{Ends};
ghost use Rattle.site_commands.specs.Work.{WritesMade};
ghost use Rattle.site_commands.specs.World.{world};

use crate::asking_input::{Asking, take_asking};
use crate::delivering::deliver;
use crate::ending::Ending;
use crate::giving_up::{give_up, refuse};
use crate::input::{take_bundle, take_manifest, take_source};
use crate::journal_input::take_journal;
use command_outputs::{
    Output, audit_output, batch_output, check_output, compile_output, demo_output, lookup_output,
    manifest_output, migrate_output, resume_output, sequence_output, settle_output,
};
use hiera_merge::Merge;
use pp_values::{MAIN_MANIFEST, Memory};
use site_io::{Gate, Sink, Source, Tree};
use std::alloc::Global;
use std::sync::Wait;
use std::thread::Threads;

/// What is told where a bundle has more bytes than are read.
pub const BUNDLE: &str = "bundle";

/// The same of a journal.
pub const JOURNAL: &str = "journal";

pub fn run_manifest<S: Source, K: Sink, E: Sink>(
    alloc: Global,
    node: &str,
    source: &mut S,
    out: &mut K,
    err: &mut E,
) -> Ending
    ensures { (n : _) (f : _) (m : _) → Ends result (asked.manifest node.now)
        (world (S.stream source.old) (K.stream out.old) (E.stream err.old) n f m)
        (world (S.stream source.new) (K.stream out.new) (E.stream err.new) n f m) }
{
    match take_manifest(alloc, source) {
        Ok(input) => write_made(manifest_output(alloc, node, input), out, err),
        Err(stop) => give_up(&stop, MAIN_MANIFEST, err),
    }
}

pub fn run_check<S: Source, K: Sink, E: Sink, T: Tree, R: Threads>(
    rt: &R,
    alloc: Global,
    dir: Option<&str>,
    source: &mut S,
    out: &mut K,
    err: &mut E,
    tree: &mut T,
) -> Ending
    ensures { (n : _) (m : _) → Ends result (asked.check (option_map (λ d. d.now) dir.entry))
        (world (S.stream source.old) (K.stream out.old) (E.stream err.old) n (T.folder tree.old) m)
        (world (S.stream source.new) (K.stream out.new) (E.stream err.new) n (T.folder tree.new) m) }
{
    match take_bundle(rt, alloc, dir, source, tree) {
        Ok(bundle) => write_made(check_output(alloc, &bundle.site), out, err),
        Err(stop) => give_up(&stop, BUNDLE, err),
    }
}

pub fn run_compile<S: Source, K: Sink, E: Sink, T: Tree, R: Threads>(
    rt: &R,
    alloc: Global,
    node: &str,
    dir: Option<&str>,
    source: &mut S,
    out: &mut K,
    err: &mut E,
    tree: &mut T,
) -> Ending
    ensures { (n : _) (m : _) → Ends result (asked.compile node.now (option_map (λ d. d.now) dir.entry))
        (world (S.stream source.old) (K.stream out.old) (E.stream err.old) n (T.folder tree.old) m)
        (world (S.stream source.new) (K.stream out.new) (E.stream err.new) n (T.folder tree.new) m) }
{
    match take_bundle(rt, alloc, dir, source, tree) {
        Ok(bundle) => write_made(compile_output(alloc, &bundle.site, node), out, err),
        Err(stop) => give_up(&stop, BUNDLE, err),
    }
}

pub fn run_sequence<S: Source, K: Sink, E: Sink, R: Threads>(
    rt: &R,
    alloc: Global,
    source: &mut S,
    out: &mut K,
    err: &mut E,
) -> Ending
    ensures { (n : _) (f : _) (m : _) → Ends result asked.sequence
        (world (S.stream source.old) (K.stream out.old) (E.stream err.old) n f m)
        (world (S.stream source.new) (K.stream out.new) (E.stream err.new) n f m) }
{
    match take_source(rt, alloc, source) {
        Ok(bundle) => write_made(sequence_output(alloc, bundle), out, err),
        Err(stop) => give_up(&stop, BUNDLE, err),
    }
}

pub fn run_lookup<S: Source, K: Sink, E: Sink, T: Tree, R: Threads>(
    rt: &R,
    alloc: Global,
    node: &str,
    key: &str,
    merge: Option<Merge>,
    dir: Option<&str>,
    source: &mut S,
    out: &mut K,
    err: &mut E,
    tree: &mut T,
) -> Ending
    ensures { (n : _) (m : _) →
        Ends result (asked.lookup node.now key.now merge (option_map (λ d. d.now) dir.entry))
        (world (S.stream source.old) (K.stream out.old) (E.stream err.old) n (T.folder tree.old) m)
        (world (S.stream source.new) (K.stream out.new) (E.stream err.new) n (T.folder tree.new) m) }
{
    match take_bundle(rt, alloc, dir, source, tree) {
        Ok(bundle) => write_made(
            lookup_output(alloc, &bundle.site, node, key, merge),
            out,
            err,
        ),
        Err(stop) => give_up(&stop, BUNDLE, err),
    }
}

pub fn run_demo<K: Sink, E: Sink>(alloc: Global, nodes: u32, out: &mut K, err: &mut E) -> Ending
    ensures { (s : _) (n : _) (f : _) (m : _) → Ends result (asked.demo nodes)
        (world s (K.stream out.old) (E.stream err.old) n f m)
        (world s (K.stream out.new) (E.stream err.new) n f m) }
{
    write_made(demo_output(alloc, nodes), out, err)
}

pub fn run_batch<S: Source, K: Sink, E: Sink, G: Gate + Sync, R: Threads + Wait + Sync>(
    rt: &R,
    alloc: Global,
    workers: u32,
    source: &mut S,
    out: &mut K,
    err: &mut E,
    gate: &G,
) -> Ending
    requires some { 1 ≤ workers }
    requires few { workers ≤ MOST_WORKERS }
    ensures { (n : _) (f : _) (m : _) → Ends result (asked.batch workers)
        (world (S.stream source.old) (K.stream out.old) (E.stream err.old) n f m)
        (world (S.stream source.new) (K.stream out.new) (E.stream err.new) n f m) }
{
    match take_source(rt, alloc, source) {
        Ok(bundle) => write_made(batch_output(rt, alloc, bundle, workers, gate), out, err),
        Err(stop) => give_up(&stop, BUNDLE, err),
    }
}

pub fn run_audit<S: Source, K: Sink, E: Sink>(
    alloc: Global,
    source: &mut S,
    out: &mut K,
    err: &mut E,
) -> Ending
    ensures { (n : _) (f : _) (m : _) → Ends result asked.audit
        (world (S.stream source.old) (K.stream out.old) (E.stream err.old) n f m)
        (world (S.stream source.new) (K.stream out.new) (E.stream err.new) n f m) }
{
    match take_journal(alloc, source) {
        Ok(history) => write_made(audit_output(alloc, &history), out, err),
        Err(stop) => give_up(&stop, JOURNAL, err),
    }
}

pub fn run_migrate<S: Source, K: Sink, E: Sink>(
    alloc: Global,
    source: &mut S,
    out: &mut K,
    err: &mut E,
) -> Ending
    ensures { (n : _) (f : _) (m : _) → Ends result asked.migrate
        (world (S.stream source.old) (K.stream out.old) (E.stream err.old) n f m)
        (world (S.stream source.new) (K.stream out.new) (E.stream err.new) n f m) }
{
    match take_journal(alloc, source) {
        Ok(history) => write_made(migrate_output(alloc, &history), out, err),
        Err(stop) => give_up(&stop, JOURNAL, err),
    }
}

pub fn run_resume<S: Source, K: Sink, E: Sink, G: Gate + Sync, R: Threads + Wait + Sync>(
    rt: &R,
    alloc: Global,
    workers: u32,
    source: &mut S,
    out: &mut K,
    err: &mut E,
    gate: &G,
) -> Ending
    requires some { 1 ≤ workers }
    requires few { workers ≤ MOST_WORKERS }
    ensures { (n : _) (f : _) (m : _) → Ends result (asked.resume workers)
        (world (S.stream source.old) (K.stream out.old) (E.stream err.old) n f m)
        (world (S.stream source.new) (K.stream out.new) (E.stream err.new) n f m) }
{
    match take_asking(alloc, source) {
        Ok(asking) => write_made(answer_asking(rt, alloc, asking, workers, gate), out, err),
        Err(stop) => give_up(&stop, JOURNAL, err),
    }
}

/// The output to the requests behind a journal.
fn answer_asking<G: Gate + Sync, R: Threads + Wait + Sync>(
    rt: &R,
    alloc: Global,
    asking: Asking,
    workers: u32,
    gate: &G,
) -> Result<Output, Memory>
    requires few_entries { length asking.history.entries ≤ MOST_ENTRIES }
    requires facts { IsTrue (give_facts asking.requests) }
    requires short { length asking.requests ≤ MOST_REQUESTS }
    requires some { 1 ≤ workers }
    requires few { workers ≤ MOST_WORKERS }
    ensures { IfOk result (λ output. HasResumed workers output asking.history.entries asking.requests) }
{
    let Asking { history, requests } = asking;
    resume_output(rt, alloc, history, &requests, workers, gate)
}

pub fn run_settle<S: Source, K: Sink, E: Sink, G: Gate + Sync, R: Threads + Wait + Sync>(
    rt: &R,
    alloc: Global,
    rounds: u32,
    workers: u32,
    source: &mut S,
    out: &mut K,
    err: &mut E,
    gate: &G,
) -> Ending
    requires once { 1 ≤ rounds }
    requires bounded { rounds ≤ MOST_ROUNDS }
    requires some { 1 ≤ workers }
    requires few { workers ≤ MOST_WORKERS }
    ensures { (n : _) (f : _) (m : _) → Ends result (asked.settle rounds workers)
        (world (S.stream source.old) (K.stream out.old) (E.stream err.old) n f m)
        (world (S.stream source.new) (K.stream out.new) (E.stream err.new) n f m) }
{
    match take_source(rt, alloc, source) {
        Ok(bundle) => write_made(
            settle_output(rt, alloc, bundle, rounds, workers, gate),
            out,
            err,
        ),
        Err(stop) => give_up(&stop, BUNDLE, err),
    }
}

/// Writes the output, if there was memory for it.
pub fn write_made<K: Sink, E: Sink>(
    made: Result<Output, Memory>,
    out: &mut K,
    err: &mut E,
) -> Ending
    ensures { WritesMade result made (K.stream out.old) (K.stream out.new) (E.stream err.old) (E.stream err.new) }
{
    match made {
        Ok(output) => deliver(&output, out, err),
        Err(_) => refuse(err, Ending::Memory, "memory\n"),
    }
}
