//! A search for a fixed point of a site.
ghost use Rattle.std.specs.Prelude.{◌≤◌, IfOk};
ghost use Rattle.site_core.specs.Resuming.{base_of};
ghost use Rattle.site_core.specs.declared.history.TheConstants.{MOST_ENTRIES};
ghost use Rattle.site_batch.specs.declared.batch.TheConstants.{MOST_WORKERS};
ghost use Rattle.history_tools.specs.Settles.{AreListed, Settles};

use crate::asking::compile_requests;
use crate::ending::round_end;
use crate::rounds::{opening, run_round};
use crate::set_changes::sets_behind;
use crate::settle_end::SettleResult;
use crate::telling::outcome_of;
use export_store::Version;
use pp_values::{Memory, Texts};
use site_core::{Language, MOST_ENTRIES};
use site_io::Gate;
use std::alloc::Global;
use std::sync::Wait;
use std::thread::Threads;

/// The most rounds of a search.
pub const MOST_ROUNDS: u32 = 100;

/// Looks for a fixed point of a site. Each round compiles every node once, by as many workers, and each compile of it
/// begins with all entries of the rounds before. The search ends after the first round in which a compile was refused
/// or met a full history, or which changed no set, and else after the last round that is allowed.
///
/// The workers are the same ones in all rounds: worker `w` is author `w` of the history, and its calls are counted on.
pub fn settle<L: Language + Drop + Sync, G: Gate + Sync, R: Threads + Wait + Sync>(
    rt: &R,
    alloc: Global,
    language: L,
    site: L::Site,
    nodes: &Texts,
    rounds: u32,
    workers: u32,
    gate: &G,
) -> Result<SettleResult<L>, Memory>
where
    L::Site: Send + Sync,
    L::Catalog: Send,
    L::Fault: Send,
    requires nodes { AreListed L.listed site nodes.now }
    requires once { 1 ≤ rounds }
    requires bounded { rounds ≤ MOST_ROUNDS }
    requires some { 1 ≤ workers }
    requires few { workers ≤ MOST_WORKERS }
    ensures rounds { IfOk result (λ r. Settles L.meaning L.listed MOST_ENTRIES site nodes.now rounds r.rounds r.end
        r.history.entries) }
    ensures authors { IfOk result (λ r. base_of r.history.entries ≤ workers) }
{
    let requests = compile_requests(alloc, nodes, MOST_ENTRIES as usize)?;
    let mut written = opening(alloc, site)?;
    let mut sets = Version::empty(alloc);
    let mut done = 0;
    loop {
        let start = written.history.entries.len();
        let (now, replies) = run_round(rt, alloc, &language, written, &requests, workers, gate)?;
        let outcome = outcome_of(replies)?;
        let after = sets_behind(alloc, &sets, &now.history.entries, start)?;
        done += 1;
        if let Some(end) = round_end(alloc, nodes, &sets, &after, rounds - done, outcome)? {
            return Ok(SettleResult {
                history: now.history,
                rounds: done,
                end,
            });
        }
        written = now;
        sets = after;
    }
}
