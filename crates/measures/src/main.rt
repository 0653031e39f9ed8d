//! Measures, each by a word: `lines COUNT` reads an attribute that so many override lines set, and prints how many lines there are;
//! `chain`, `star` and `random COUNT` order so many resources with about as many edges, and print how many were ordered;
//! `turns THREADS COUNT` has so many threads take so many turns each of the lock, and prints the count of turns.
#![tactic(auto)]

mod lines;
mod orders;
mod shapes;
mod turns;

use lines::overridden;
use orders::ordered;
use shapes::Shape;
use std::alloc::Global;
use std::process::ExitCode;
use std::rt::Env;
use std::sync::Wait;
use std::thread::Threads;
use std::{env, io};
use turns::turns_taken;

/// The most threads, which is what one call of the pool has side by side.
const THREADS: u32 = 64;

fn main(rt: HostRuntime) -> io::Result<ExitCode> {
    let mut words = Vec::new(rt.alloc());
    for word in env::args(&rt)?.skip(1) {
        words.push(word)?;
    }
    match measured(&rt, rt.alloc(), words.as_slice()) {
        Some(found) => println!(rt; "{found}")?,
        None => eprintln!(rt;
            "usage: measures lines|chain|star|random COUNT, or turns THREADS COUNT"
        )?,
    }
    Ok(ExitCode::from(0))
}

fn measured<R: Threads + Wait + Sync>(rt: &R, alloc: Global, words: &[String]) -> Option<u64> {
    match words {
        [measure, count] => {
            of_tables(alloc, measure.as_str(), count.as_str().parse().ok()?).map(
                |found| found as u64,
            )
        }
        [measure, threads, count] if measure.as_str() == "turns" => {
            of_lock(
                rt,
                alloc,
                threads.as_str().parse().ok()?,
                count.as_str().parse().ok()?,
            )
        }
        _ => None,
    }
}

fn of_tables(alloc: Global, measure: &str, count: u32) -> Option<usize> {
    match measure {
        "lines" => overridden(alloc, count).ok(),
        "chain" => ordered(alloc, Shape::Chain, count),
        "star" => ordered(alloc, Shape::Star, count),
        "random" => ordered(alloc, Shape::Random, count),
        _ => None,
    }
}

fn of_lock<R: Threads + Wait + Sync>(
    rt: &R,
    alloc: Global,
    threads: u32,
    count: u32,
) -> Option<u64> {
    if threads > THREADS {
        return None;
    }
    turns_taken(rt, alloc, threads, count).ok()
}
