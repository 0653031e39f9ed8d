//! A measure: a catalog is applied by waves to a machine whose refreshes take a while.
//!
//! `wave_measures WORKERS LOOKS`, with the line of a catalog on standard input, prints how many lines the report has.
//! Each refresh looks so many times at a word of its own. With 0 workers one turn is taken after another.
#![tactic(auto)]

mod applied;
mod slow;

use crate::applied::lines_of;
use std::alloc::Global;
use std::process::ExitCode;
use std::rt::Env;
use std::thread::Threads;
use std::{env, io};

fn main(rt: HostRuntime) -> io::Result<ExitCode> {
    let mut words = Vec::new(rt.alloc());
    for word in env::args(&rt)?.skip(1) {
        words.push(word)?;
    }
    let input = io::read_to_string(rt.alloc(), rt.stdin())?;
    match measured(&rt, rt.alloc(), words.as_slice(), input.as_str()) {
        Some(found) => println!(rt; "{found}")?,
        None => eprintln!(rt; "usage: wave_measures WORKERS LOOKS < CATALOG")?,
    }
    Ok(ExitCode::from(0))
}

fn measured<R: Threads>(rt: &R, alloc: Global, words: &[String], text: &str) -> Option<usize> {
    match words {
        [workers, looks] => lines_of(
            rt,
            alloc,
            workers.as_str().parse().ok()?,
            looks.as_str().parse().ok()?,
            text,
        ),
        _ => None,
    }
}
