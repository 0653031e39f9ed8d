//! A run of the program, from what the system hands to it to the code that it exits with.
ghost use Rattle.std.specs.Prelude.{◌≡◌, codes};
ghost use Rattle.std.specs.Process.{exit_status};
ghost use Rattle.site_commands.specs.Program.{without_name, HasRunOn};
ghost use Rattle.command_outputs.specs.Lines.{line};
ghost use Rattle.site_commands.specs.World.{world, Says};

use crate::ending::Ending;
use crate::giving_up::refuse;
use crate::site::site_main;
use agent_machine::WideMachine;
use site_io::{Gate, Listener, Sink, Source, Tree};
use std::alloc::Global;
use std::io;
use std::io::ErrorKind;
use std::process::ExitCode;
use std::sync::Wait;
use std::thread::Threads;

/// Runs the program on its command line, whose first word is the program's name, and gives the code to exit with.
///
/// A word that is no text makes them faulty words, and that is said of them.
pub fn run_program<
    S: Source,
    K: Sink,
    E: Sink,
    N: Listener,
    T: Tree,
    M: WideMachine,
    G: Gate + Sync,
    R: Threads + Wait + Sync,
>(
    rt: &R,
    alloc: Global,
    line: io::Result<Vec<String>>,
    source: &mut S,
    out: &mut K,
    err: &mut E,
    net: &mut N,
    tree: &mut T,
    machine: &mut M,
    gate: &G,
) -> ExitCode
where
    N::Conn: Send + Drop,
    M::Part: Drop + 'static,
    ensures { HasRunOn (exit_status result) line
        (world (S.stream source.old) (K.stream out.old) (E.stream err.old) (N.net net.old) (T.folder tree.old)
        (M.Machine.state machine.old))
        (world (S.stream source.new) (K.stream out.new) (E.stream err.new) (N.net net.new) (T.folder tree.new)
        (M.Machine.state machine.new)) }
{
    let status = match line {
        Ok(line) => {
            let words = without_name(line.as_slice());
            site_main(rt, alloc, words, source, out, err, net, tree, machine, gate)
        }
        Err(error) if error.kind() == ErrorKind::OutOfMemory => lack_memory(err),
        Err(_) => refuse_words(err),
    };
    ExitCode::from(status)
}

/// The words behind the program's name, all of them.
fn without_name(line: &[String]) -> &[String]
    ensures { result.now ≡ without_name line.now }
{
    match line {
        [] => &[],
        [_, words @ ..] => words,
    }
}

/// Says that memory is wanting, and gives that status.
fn lack_memory<E: Sink>(err: &mut E) -> u8
    ensures ending { result ≡ 16 }
    ensures said { Says (line (codes "memory")) (E.stream err.old) (E.stream err.new) }
{
    refuse(err, Ending::Memory, "memory\n").status()
}

/// Says that a word is no text, and gives the status of faulty words.
fn refuse_words<E: Sink>(err: &mut E) -> u8
    ensures ending { result ≡ 10 }
    ensures said { Says (line (codes "a word is no UTF-8")) (E.stream err.old) (E.stream err.new) }
{
    refuse(err, Ending::BadWords, "a word is no UTF-8\n").status()
}
