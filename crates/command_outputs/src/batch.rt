//! The output to a bundle whose requests workers share out.
ghost use Rattle.std.specs.Prelude.{◌≤◌, IfOk, IsTrue, length};
ghost use Rattle.res_core.specs.AskedFacts.{give_facts};
ghost use Rattle.site_batch.specs.declared.batch.TheConstants.{MOST_WORKERS};
ghost use Rattle.site_bundle.specs.declared.limits.TheConstants.{MOST_REQUESTS};
ghost use Rattle.command_outputs.specs.Outputs.{HasShared};

use crate::output::Output;
use crate::replies::{output_of, run_text};
use compile_core::PuppetLanguage;
use pp_values::Memory;
use site_batch::run_batch;
use site_bundle::Bundle;
use site_io::Gate;
use std::alloc::Global;
use std::sync::Wait;
use std::thread::Threads;

/// The output to a bundle whose requests so many workers share out.
pub fn batch_output<G: Gate + Sync, R: Threads + Wait + Sync>(
    rt: &R,
    alloc: Global,
    bundle: Bundle,
    workers: u32,
    gate: &G,
) -> Result<Output, Memory>
    requires facts { IsTrue (give_facts bundle.requests) }
    requires short { length bundle.requests ≤ MOST_REQUESTS }
    requires some { 1 ≤ workers }
    requires few { workers ≤ MOST_WORKERS }
    ensures { IfOk result (λ output. HasShared workers output bundle) }
{
    let Bundle {
        site,
        requests,
        machine: _unused,
    } = bundle;
    let came = run_batch(rt, alloc, PuppetLanguage, site, &requests, workers, gate)?;
    let text = run_text(alloc, &requests, &came.history, &came.replies)?;
    Ok(output_of(&came.replies, text))
}
