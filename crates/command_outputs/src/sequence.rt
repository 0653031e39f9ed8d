//! The output to a bundle whose requests are answered one after another.
ghost use Rattle.std.specs.Prelude.{◌≤◌, IfOk, IsTrue, length};
ghost use Rattle.res_core.specs.AskedFacts.{give_facts};
ghost use Rattle.site_bundle.specs.declared.limits.TheConstants.{MOST_REQUESTS};
ghost use Rattle.command_outputs.specs.Outputs.{HasRun};

use crate::output::Output;
use crate::replies::{output_of, run_text};
use compile_core::PuppetLanguage;
use pp_values::Memory;
use site_bundle::Bundle;
use site_sequence::run_sequence;
use std::alloc::Global;

/// The output to a bundle.
pub fn sequence_output(alloc: Global, bundle: Bundle) -> Result<Output, Memory>
    requires facts { IsTrue (give_facts bundle.requests) }
    requires short { length bundle.requests ≤ MOST_REQUESTS }
    ensures { IfOk result (λ output. HasRun output bundle) }
{
    let Bundle {
        site,
        requests,
        machine: _unused,
    } = bundle;
    let came = run_sequence(alloc, &PuppetLanguage, site, &requests)?;
    let text = run_text(alloc, &requests, &came.history, &came.replies)?;
    Ok(output_of(&came.replies, text))
}
