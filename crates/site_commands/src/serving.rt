//! A site that is served to connections.
ghost use Rattle.std.specs.Prelude.{◌≡◌, ◌≤◌, IfOk};
ghost use Rattle.std.specs.List.{list_any};
ghost use Rattle.site_docs.specs.JournalText.{journal_text};
ghost use Rattle.site_service.specs.declared.service.TheConstants.{MOST_CONNECTIONS};
ghost use Rattle.site_words.specs.Asked as asked;
ghost use Rattle.site_commands.specs.Endings.{Ends};
ghost use Rattle.site_commands.specs.Serving as spec;
ghost use Rattle.site_commands.specs.Serving.{EndsSaying, Serves, TellsServed, TellsService, end_lines, service_ending};
ghost use Rattle.site_commands.specs.World.{world};

use crate::commands::BUNDLE;
use crate::delivering::write_log;
use crate::end_lines::end_lines;
use crate::ending::Ending;
use crate::giving_up::{give_up, refuse};
use crate::input::take_folder;
use compile_core::PuppetLanguage;
use pp_values::{Memory, Text};
use site_bundle::{Bundle, Site};
use site_docs::write_journal;
use site_io::{Gate, Listener, Sink, Tree, write_all};
use site_serve::ConnEnd;
use site_service::{Served, ServiceStop, serve};
use std::alloc::Global;
use std::sync::Wait;
use std::thread::Threads;

/// Reads the folder, serves its site to connections, and writes what came of it.
pub fn run_serve<K: Sink, E: Sink, N: Listener, T: Tree, G: Gate + Sync, R: Threads + Wait + Sync>(
    rt: &R,
    alloc: Global,
    port: u16,
    count: u32,
    dir: &str,
    out: &mut K,
    err: &mut E,
    net: &mut N,
    tree: &mut T,
    gate: &G,
) -> Ending
where
    N::Conn: Send + Drop,
    requires { count ≤ MOST_CONNECTIONS }
    ensures { (s : _) (m : _) → Ends result (asked.serve port count dir.now)
        (world s (K.stream out.old) (E.stream err.old) (N.net net.old) (T.folder tree.old) m)
        (world s (K.stream out.new) (E.stream err.new) (N.net net.new) (T.folder tree.new) m) }
{
    match take_folder(rt, alloc, dir, tree) {
        Ok(bundle) => serve_bundle(rt, alloc, port, count, bundle, out, err, net, gate),
        Err(stop) => give_up(&stop, BUNDLE, err),
    }
}

fn serve_bundle<K: Sink, E: Sink, N: Listener, G: Gate + Sync, R: Threads + Wait + Sync>(
    rt: &R,
    alloc: Global,
    port: u16,
    count: u32,
    bundle: Bundle,
    out: &mut K,
    err: &mut E,
    net: &mut N,
    gate: &G,
) -> Ending
where
    N::Conn: Send + Drop,
    requires { count ≤ MOST_CONNECTIONS }
    ensures { Serves result bundle.site count (K.stream out.old) (K.stream out.new) (E.stream err.old)
        (E.stream err.new) (N.net net.old) (N.net net.new) }
{
    let Bundle {
        site,
        requests: _,
        machine: _,
    } = bundle;
    serve_site(rt, alloc, port, count, site, out, err, net, gate)
}

fn serve_site<K: Sink, E: Sink, N: Listener, G: Gate + Sync, R: Threads + Wait + Sync>(
    rt: &R,
    alloc: Global,
    port: u16,
    count: u32,
    site: Site,
    out: &mut K,
    err: &mut E,
    net: &mut N,
    gate: &G,
) -> Ending
where
    N::Conn: Send + Drop,
    requires { count ≤ MOST_CONNECTIONS }
    ensures { Serves result site count (K.stream out.old) (K.stream out.new) (E.stream err.old) (E.stream err.new)
        (N.net net.old) (N.net net.new) }
{
    match serve(rt, alloc, PuppetLanguage, site, net, port, count, gate) {
        Ok(served) => tell_service(alloc, &served, out, err),
        Err(_) => refuse(err, Ending::Memory, "memory\n"),
    }
}

/// What is written of a service.
#[derive(Drop)]
struct Told {
    journal: Text,
    lines: Text,
}

/// Writes what came of a service.
pub fn tell_service<K: Sink, E: Sink>(
    alloc: Global,
    served: &Served<PuppetLanguage>,
    out: &mut K,
    err: &mut E,
) -> Ending
    ensures { TellsServed result served.now.history.entries served.now.ends.items served.now.stop (K.stream out.old)
        (K.stream out.new) (E.stream err.old) (E.stream err.new) }
{
    match texts_of(alloc, served) {
        Ok(told) => write_told(&told, served.ends.as_slice(), served.stop, out, err),
        Err(_) => refuse(err, Ending::Memory, "memory\n"),
    }
}

fn texts_of(alloc: Global, served: &Served<PuppetLanguage>) -> Result<Told, Memory>
    ensures { IfOk result (λ told. (told.journal ≡ journal_text served.now.history.entries)
        × (told.lines ≡ end_lines 1 served.now.ends.items)) }
{
    let journal = write_journal(alloc, &served.history)?;
    let lines = end_lines(alloc, served.ends.as_slice())?;
    Ok(Told { journal, lines })
}

/// Writes the journal, then the lines of the connections, and then what the run ends by.
fn write_told<K: Sink, E: Sink>(
    told: &Told,
    ends: &[ConnEnd],
    stop: ServiceStop,
    out: &mut K,
    err: &mut E,
) -> Ending
    ensures { TellsService result (service_ending ends.now stop) told.now.journal told.now.lines (K.stream out.old)
        (K.stream out.new) (E.stream err.old) (E.stream err.new) }
{
    match write_all(out, told.journal.as_str().as_bytes()) {
        Ok(()) => match write_log(err, told.lines.as_str()) {
            Ok(()) => say_last(service_ending(ends, stop), err),
            Err(_) => Ending::WriteFault,
        },
        Err(_) => Ending::WriteFault,
    }
}

/// Says why the run ends so, where it has to. That the listener failed is a part of the work: where it can't be said the
/// run ends by that.
fn say_last<E: Sink>(ending: Ending, err: &mut E) -> Ending
    ensures { EndsSaying result ending (E.stream err.old) (E.stream err.new) }
{
    match ending {
        Ending::Memory => refuse(err, ending, "memory\n"),
        Ending::NetFault => match write_all(err, "net fault\n".as_bytes()) {
            Ok(()) => ending,
            Err(_fault) => Ending::WriteFault,
        },
        _ => ending,
    }
}

/// How a run ends by what came of its service.
fn service_ending(ends: &[ConnEnd], stop: ServiceStop) -> Ending
    ensures { result ≡ service_ending ends.now stop }
{
    if want_memory(ends) {
        return Ending::Memory;
    }
    match stop {
        ServiceStop::Counted | ServiceStop::Closed => Ending::Done,
        ServiceStop::NetFault => Ending::NetFault,
    }
}

fn want_memory(ends: &[ConnEnd]) -> bool
    ensures { result ≡ list_any spec.is_memory ends.now }
{
    ends.iter().any(is_memory)
}

fn is_memory(end: &ConnEnd) -> bool
    ensures { result ≡ spec.is_memory end.now }
{
    match end {
        ConnEnd::Memory => true,
        ConnEnd::Closed | ConnEnd::Bad(_, _) | ConnEnd::ReadFault | ConnEnd::WriteFault => false,
    }
}
