use crate::slow::Slow;
use agent_transaction::run_catalog;
use catalog_reading::read_catalog;
use std::alloc::Global;
use std::thread::Threads;
use wide_apply::run_wide;

/// The most workers of `run_wide`.
const MOST: u32 = 64;

/// How many lines the report has, where this is the text of a catalog and there is memory for the run.
pub fn lines_of<R: Threads>(
    rt: &R,
    alloc: Global,
    workers: u32,
    looks: u64,
    text: &str,
) -> Option<usize> {
    let catalog = read_catalog(alloc, text).ok()?;
    let mut machine = Slow::new(looks);
    if workers == 0 {
        let report = run_catalog(alloc, &catalog, &mut machine).ok()?;
        return Some(report.lines.len());
    }
    if workers > MOST {
        return None;
    }
    let report = run_wide(rt, alloc, &catalog, &mut machine, workers).ok()?;
    Some(report.lines.len())
}
