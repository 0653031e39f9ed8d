//! The commands of the program, from its words to its exit status.
ghost use Rattle.std.specs.Prelude.{◌≡◌, ◌⊎◌};
ghost use Rattle.site_io.specs.Stream.{Rose};
ghost use Rattle.site_words.specs.Asked.{IsWithin, asked_of};
ghost use Rattle.site_words.specs.Reading.{asked_by, texts_of};
ghost use Rattle.site_commands.specs.Endings.{Complained, HasEnded, IsComplaint, IsPlain, IsShared};
ghost use Rattle.site_commands.specs.Settled.{IsSettled};
ghost use Rattle.site_commands.specs.Status.{IsStatus};
ghost use Rattle.site_commands.specs.World.{world};

use crate::ending::Ending;
use crate::giving_up::{refuse, refuse_word};
use crate::running::{run_plain, run_shared};
use agent_machine::WideMachine;
use site_io::{Gate, Listener, Sink, Source, Tree};
use site_words::{Command, WordStop, read_words};
use std::alloc::Global;
use std::sync::Wait;
use std::thread::Threads;

/// Runs the program on its words, which come without the program's name, and gives the exit status.
///
/// | Status | When | Error line |
/// |-|-|-|
/// | 0 | the command did its work, and no row below holds | of `manifest`, `compile` and `apply` the log |
/// | 1 | the node has no catalog, the data have no value, or the site does not list the node | why |
/// | 1 | `check` found a fault, or a reply of `sequence` or `batch` is a refusal | none |
/// | 1 | `audit` found a history that is not legal, or a reply of `resume` is a refusal | none |
/// | 1 | the history that `resume` or `serve --resume` reads is not legal, or its greatest author is too great | why |
/// | 1 | a round of `settle` had a compile that was refused, or met a full history | why |
/// | 2, 4, 6 | `apply`: something changed, failed, both | the log |
/// | 10 | the words are faulty | what `clap` says, or `bad word WORD` |
/// | 11 | the input is not what the command reads | `B1`, `B2 PATH`, `B3 PATH`, or `bad line N` of a journal |
/// | 12 | the input could not be read | `read fault` |
/// | 13 | the output, the log or a fault's line could not be written | a front of it, or none |
/// | 14 | the listener failed | `net fault` |
/// | 15 | the tree of files failed | `tree fault PATH` |
/// | 16 | want of memory, in the program or in a reply that was written | `memory` |
/// | 17 | the last round of `settle` still changed what a node exports | its sets before and after |
///
/// The first that is met decides, in the order: words (10), input (12, 15, 11), work, output (13). An error line of
/// statuses 10, 11, 12, 15 and 16 that can't be written changes no status.
pub fn site_main<
    S: Source,
    K: Sink,
    E: Sink,
    N: Listener,
    T: Tree,
    M: WideMachine,
    G: Gate + Sync,
    R: Threads + Wait + Sync,
>(
    rt: &R,
    alloc: Global,
    words: &[String],
    source: &mut S,
    out: &mut K,
    err: &mut E,
    net: &mut N,
    tree: &mut T,
    machine: &mut M,
    gate: &G,
) -> u8
where
    N::Conn: Send + Drop,
    M::Part: Drop + 'static,
    // What each status means: what was asked, what was read, what was done and what was written.
    ensures ended { HasEnded result (asked_of (texts_of words.now))
        (world (S.stream source.old) (K.stream out.old) (E.stream err.old) (N.net net.old) (T.folder tree.old)
        (M.Machine.state machine.old))
        (world (S.stream source.new) (K.stream out.new) (E.stream err.new) (N.net net.new) (T.folder tree.new)
        (M.Machine.state machine.new)) }

    // Faulty words are told exactly, but for want of memory; and where source and tree tell what they have, so is every
    // other status.
    ensures words { result ≡ 10 → IsComplaint (asked_of (texts_of words.now)) }
    ensures faulty { IsComplaint (asked_of (texts_of words.now)) → (result ≡ 10) ⊎ (result ≡ 16) }
    ensures settled { IsSettled result (asked_of (texts_of words.now))
        (world (S.stream source.old) (K.stream out.old) (E.stream err.old) (N.net net.old) (T.folder tree.old)
        (M.Machine.state machine.old)) }
    ensures statuses { IsStatus result }

    // Faults of the outside are answered only where its counts rose.
    ensures source_rose { result ≡ 12 → Rose (S.stream source.old).faults (S.stream source.new).faults }
    ensures sink_rose { result ≡ 13 → Rose (K.stream out.old).faults (K.stream out.new).faults
        ⊎ Rose (E.stream err.old).faults (E.stream err.new).faults }
    ensures net_rose { result ≡ 14 → Rose (N.net net.old).faults (N.net net.new).faults }
    ensures tree_rose { result ≡ 15 → Rose (T.folder tree.old).faults (T.folder tree.new).faults }
{
    run(rt, alloc, words, source, out, err, net, tree, machine, gate)
}

fn run<
    S: Source,
    K: Sink,
    E: Sink,
    N: Listener,
    T: Tree,
    M: WideMachine,
    G: Gate + Sync,
    R: Threads + Wait + Sync,
>(
    rt: &R,
    alloc: Global,
    words: &[String],
    source: &mut S,
    out: &mut K,
    err: &mut E,
    net: &mut N,
    tree: &mut T,
    machine: &mut M,
    gate: &G,
) -> u8
where
    N::Conn: Send + Drop,
    M::Part: Drop + 'static,
    ensures { HasEnded result (asked_of (texts_of words.now))
        (world (S.stream source.old) (K.stream out.old) (E.stream err.old) (N.net net.old) (T.folder tree.old)
        (M.Machine.state machine.old))
        (world (S.stream source.new) (K.stream out.new) (E.stream err.new) (N.net net.new) (T.folder tree.new)
        (M.Machine.state machine.new)) }
{
    match read_words(alloc, words) {
        Ok(command) => {
            run_command(
                rt, alloc, command, source, out, err, net, tree, machine, gate,
            )
        }
        Err(stop) => complain(&stop, err).status(),
    }
}

/// Says what is wrong with the words.
fn complain<E: Sink>(stop: &WordStop<'_>, err: &mut E) -> Ending
    ensures { Complained result stop.now (E.stream err.old) (E.stream err.new) }
{
    match stop {
        WordStop::Refused(text) => refuse(err, Ending::BadWords, text.as_str()),
        WordStop::BadWord(word) => refuse_word(err, Ending::BadWords, "bad word ", word),
        WordStop::Memory => refuse(err, Ending::Memory, "memory\n"),
    }
}

fn run_command<
    S: Source,
    K: Sink,
    E: Sink,
    N: Listener,
    T: Tree,
    M: WideMachine,
    G: Gate + Sync,
    R: Threads + Wait + Sync,
>(
    rt: &R,
    alloc: Global,
    command: Command<'_>,
    source: &mut S,
    out: &mut K,
    err: &mut E,
    net: &mut N,
    tree: &mut T,
    machine: &mut M,
    gate: &G,
) -> u8
where
    N::Conn: Send + Drop,
    M::Part: Drop + 'static,
    requires { IsWithin (asked_by command) }
    ensures { HasEnded result (asked_by command.entry)
        (world (S.stream source.old) (K.stream out.old) (E.stream err.old) (N.net net.old) (T.folder tree.old)
        (M.Machine.state machine.old))
        (world (S.stream source.new) (K.stream out.new) (E.stream err.new) (N.net net.new) (T.folder tree.new)
        (M.Machine.state machine.new)) }
{
    match command {
        Command::Batch { .. }
        | Command::Serve { .. }
        | Command::ServeOn { .. }
        | Command::Resume { .. }
        | Command::Settle { .. } => {
            shared_command(
                rt, alloc, command, source, out, err, net, tree, machine, gate,
            )
        }
        Command::Manifest { .. }
        | Command::Check { .. }
        | Command::Compile { .. }
        | Command::Sequence
        | Command::Lookup { .. }
        | Command::Apply { .. }
        | Command::Demo { .. }
        | Command::Audit
        | Command::Migrate => {
            plain_command(
                rt, alloc, command, source, out, err, net, tree, machine, gate,
            )
        }
    }
}

/// Runs a command that waits for nobody.
pub fn plain_command<
    S: Source,
    K: Sink,
    E: Sink,
    N: Listener,
    T: Tree,
    M: WideMachine,
    G: Gate,
    R: Threads,
>(
    rt: &R,
    alloc: Global,
    command: Command<'_>,
    source: &mut S,
    out: &mut K,
    err: &mut E,
    _net: &mut N,
    tree: &mut T,
    machine: &mut M,
    _gate: &G,
) -> u8
where
    M::Part: Drop + 'static,
    requires plain { IsPlain (asked_by command) }
    requires within { IsWithin (asked_by command) }
    ensures { HasEnded result (asked_by command.entry)
        (world (S.stream source.old) (K.stream out.old) (E.stream err.old) (N.net _net.old) (T.folder tree.old)
        (M.Machine.state machine.old))
        (world (S.stream source.new) (K.stream out.new) (E.stream err.new) (N.net _net.new) (T.folder tree.new)
        (M.Machine.state machine.new)) }
{
    run_plain(rt, alloc, command, source, out, err, tree, machine).status()
}

/// Runs a command that may wait, for threads of its own and for what the gate waits for.
pub fn shared_command<
    S: Source,
    K: Sink,
    E: Sink,
    N: Listener,
    T: Tree,
    M: WideMachine,
    G: Gate + Sync,
    R: Threads + Wait + Sync,
>(
    rt: &R,
    alloc: Global,
    command: Command<'_>,
    source: &mut S,
    out: &mut K,
    err: &mut E,
    net: &mut N,
    tree: &mut T,
    _machine: &mut M,
    gate: &G,
) -> u8
where
    N::Conn: Send + Drop,
    M::Part: Drop + 'static,
    requires shared { IsShared (asked_by command) }
    requires within { IsWithin (asked_by command) }
    ensures { HasEnded result (asked_by command.entry)
        (world (S.stream source.old) (K.stream out.old) (E.stream err.old) (N.net net.old) (T.folder tree.old)
        (M.Machine.state _machine.old))
        (world (S.stream source.new) (K.stream out.new) (E.stream err.new) (N.net net.new) (T.folder tree.new)
        (M.Machine.state _machine.new)) }
{
    run_shared(rt, alloc, command, source, out, err, net, tree, gate).status()
}
