//! A history that is gone on with and served to connections.
ghost use Rattle.std.specs.Prelude.{◌≡◌, ◌≤◌, length};
ghost use Rattle.compile_core.specs.Puppet.{puppet};
ghost use Rattle.history_audit.specs.Audits.{audited};
ghost use Rattle.site_core.specs.Legal.{Legal};
ghost use Rattle.site_core.specs.declared.history.TheConstants.{MOST_ENTRIES};
ghost use Rattle.site_service.specs.declared.service.TheConstants.{MOST_CONNECTIONS};
ghost use Rattle.site_words.specs.Asked as asked;
ghost use Rattle.site_commands.specs.Endings.{Ends};
ghost use Rattle.site_commands.specs.Serving.{ServesLegal, ServesOn};
ghost use Rattle.site_commands.specs.World.{world};

use crate::commands::{JOURNAL, write_made};
use crate::ending::Ending;
use crate::giving_up::{give_up, refuse};
use crate::journal_input::take_journal;
use crate::serving::tell_service;
use command_outputs::{refuse_author, refuse_history};
use compile_core::PuppetLanguage;
use history_audit::{Verdict, audit, says_legal_exactly};
use site_bundle::Site;
use site_core::{History, ResumeStop};
use site_io::{Gate, Listener, Sink, Source};
use site_service::serve_resumed;
use std::alloc::Global;
use std::sync::Wait;
use std::thread::Threads;

/// Reads a journal, goes on from its history with a service, and writes what came of it.
pub fn run_serve_on<
    S: Source,
    K: Sink,
    E: Sink,
    N: Listener,
    G: Gate + Sync,
    R: Threads + Wait + Sync,
>(
    rt: &R,
    alloc: Global,
    port: u16,
    count: u32,
    source: &mut S,
    out: &mut K,
    err: &mut E,
    net: &mut N,
    gate: &G,
) -> Ending
where
    N::Conn: Send + Drop,
    requires { count ≤ MOST_CONNECTIONS }
    ensures { (f : _) (m : _) → Ends result (asked.serve_on port count)
        (world (S.stream source.old) (K.stream out.old) (E.stream err.old) (N.net net.old) f m)
        (world (S.stream source.new) (K.stream out.new) (E.stream err.new) (N.net net.new) f m) }
{
    match take_journal(alloc, source) {
        Ok(history) => serve_history(rt, alloc, port, count, history, out, err, net, gate),
        Err(stop) => give_up(&stop, JOURNAL, err),
    }
}

/// Has each entry looked at again, and then serves the history where it is legal.
fn serve_history<K: Sink, E: Sink, N: Listener, G: Gate + Sync, R: Threads + Wait + Sync>(
    rt: &R,
    alloc: Global,
    port: u16,
    count: u32,
    history: History<Site>,
    out: &mut K,
    err: &mut E,
    net: &mut N,
    gate: &G,
) -> Ending
where
    N::Conn: Send + Drop,
    requires few_entries { length history.entries ≤ MOST_ENTRIES }
    requires few { count ≤ MOST_CONNECTIONS }
    ensures { ServesOn result history.entries count (K.stream out.old) (K.stream out.new) (E.stream err.old)
        (E.stream err.new) (N.net net.old) (N.net net.new) }
{
    match audit(alloc, &PuppetLanguage, &history) {
        Ok(verdict) => serve_audited(
            rt, alloc, port, count, verdict, history, out, err, net, gate,
        ),
        Err(_) => refuse(err, Ending::Memory, "memory\n"),
    }
}

/// The same of a history of which this is the verdict.
fn serve_audited<K: Sink, E: Sink, N: Listener, G: Gate + Sync, R: Threads + Wait + Sync>(
    rt: &R,
    alloc: Global,
    port: u16,
    count: u32,
    verdict: Verdict,
    history: History<Site>,
    out: &mut K,
    err: &mut E,
    net: &mut N,
    gate: &G,
) -> Ending
where
    N::Conn: Send + Drop,
    requires audited { verdict ≡ audited puppet history.entries }
    requires few_entries { length history.entries ≤ MOST_ENTRIES }
    requires few { count ≤ MOST_CONNECTIONS }
    ensures { ServesOn result history.entries count (K.stream out.old) (K.stream out.new) (E.stream err.old)
        (E.stream err.new) (N.net net.old) (N.net net.new) }
{
    match verdict {
        Verdict::Legal(_) => {
            says_legal_exactly::<PuppetLanguage>();
            serve_legal(rt, alloc, port, count, history, out, err, net, gate)
        }
        Verdict::Broken { .. } => write_made(refuse_history(alloc, &verdict), out, err),
    }
}

/// The same of a legal history.
fn serve_legal<K: Sink, E: Sink, N: Listener, G: Gate + Sync, R: Threads + Wait + Sync>(
    rt: &R,
    alloc: Global,
    port: u16,
    count: u32,
    history: History<Site>,
    out: &mut K,
    err: &mut E,
    net: &mut N,
    gate: &G,
) -> Ending
where
    N::Conn: Send + Drop,
    requires legal { Legal puppet history.entries }
    requires few_entries { length history.entries ≤ MOST_ENTRIES }
    requires few { count ≤ MOST_CONNECTIONS }
    ensures { ServesLegal result history.entries count (K.stream out.old) (K.stream out.new) (E.stream err.old)
        (E.stream err.new) (N.net net.old) (N.net net.new) }
{
    match serve_resumed(rt, alloc, PuppetLanguage, history, net, port, count, gate) {
        Ok(served) => tell_service(alloc, &served, out, err),
        Err(ResumeStop::Authors(author)) => write_made(refuse_author(alloc, author), out, err),
        Err(ResumeStop::Memory) => refuse(err, Ending::Memory, "memory\n"),
    }
}
