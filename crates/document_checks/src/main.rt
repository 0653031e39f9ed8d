//! A program for tests: documents out of their texts, and written again.
//!
//! Each document on standard input stands behind a line with its kind and its length in bytes. For each there is a line
//! `ok LENGTH`, behind which stands the text that is written for what was read, or a line `bad N` with the number of the
//! first bad line.
#![tactic(auto)]

mod documents;
mod framing;

use crate::framing::answers;
use pp_values::Memory;
use std::io;

fn main(rt: HostRuntime) -> io::Result<()> {
    let input = io::read_to_string(rt.alloc(), rt.stdin())?;
    match answers(rt.alloc(), input.as_str()) {
        Ok(text) => print!(rt; "{text}"),
        Err(Memory) => eprintln!(rt; "memory"),
    }
}
