//! The program of the site, over the real words, streams, sockets and folders, and a machine that is a document.
#![tactic(auto)]

use agent_machine::{DocMachine, FailingTexts, MachineDoc, States};
use core::thread::{Anything, Stack};
use pp_values::Memory;
use site_commands::run_program;
use site_io::{
    FolderTree, OpenGate, StandardError, StandardInput, StandardOutput, TcpPort, write_all,
};
use std::alloc::Global;
use std::process::ExitCode;
use std::thread::Threads;
use std::{env, io};
use work_pool::on_large_stack;

/// How many bytes the heap has room for from the beginning. Of these only the pages that are used take memory.
const ROOM: usize = 16_777_216;

/// The stack of the thread that makes the heap, in bytes.
const SMALL_STACK: usize = 131_072;

/// The status for want of memory.
const NO_MEMORY: u8 = 16;

/// Runs the program on the real words and streams, on a thread with a large stack. Where that thread can't be had memory
/// is wanting, and nothing is run.
fn main(rt: HostRuntime) -> ExitCode {
    make_room(&rt, rt.alloc());
    let ended = on_large_stack(&rt, move || match empty_machine(rt.alloc()) {
        Ok(mut machine) => run_program(
            &rt,
            rt.alloc(),
            command_line(&rt),
            &mut StandardInput::new(rt.stdin()),
            &mut StandardOutput::new(rt.stdout()),
            &mut StandardError::new(rt.stderr()),
            &mut TcpPort::new(&rt),
            &mut FolderTree::new(&rt),
            &mut machine,
            &OpenGate,
        ),
        Err(Memory) => lack_memory(&rt),
    });
    match ended {
        Ok(code) => code,
        Err(_) => lack_memory(&rt),
    }
}

/// A machine of which nothing is recorded until a document is loaded.
fn empty_machine(alloc: Global) -> Result<DocMachine, Memory> {
    let document = MachineDoc {
        failing: FailingTexts::new(alloc),
        state: States::new(alloc),
    };
    DocMachine::new(alloc, document, &[])
}

/// Says that memory is wanting. The status tells the cause, whether the line can be written or not.
fn lack_memory(rt: &HostRuntime) -> ExitCode {
    let _ = write_all(&mut StandardError::new(rt.stderr()), "memory\n".as_bytes());
    ExitCode::from(NO_MEMORY)
}

/// Makes the heap of a thread, lets it grow once, and ends that thread, so that the next one has this heap: it grows by a
/// page at a time else, and asks the kernel each time. No memory is held.
///
/// The first block is none of the heap's own, but tells it to hold blocks of this size. The second becomes its own, so
/// what is given back later is used again, and does not go to the kernel and come from there anew.
///
/// The heap is made before there is a large stack, since the allocator asks for 128 MiB of addresses to lay out 64 of them.
/// A thread for which it can't do that has no heap, and each of its blocks takes pages of its own.
fn make_room(rt: &impl Threads, alloc: Global) {
    let grow = move || {
        drop(Vec::<u8>::with_capacity(alloc, ROOM));
        drop(Vec::<u8>::with_capacity(alloc, ROOM));
    };
    match Stack::new()
        .stack_size(SMALL_STACK)
        .spawn_with(rt, Anything, grow)
    {
        Ok(thread) => thread.join(rt),
        Err(_) => {}
    }
}

fn command_line(rt: &HostRuntime) -> io::Result<Vec<String>> {
    Ok(env::args(rt)?.collect(rt.alloc())?)
}
