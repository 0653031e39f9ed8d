//! The output to the audit of a journal: whether its history is legal.
ghost use Rattle.std.specs.Prelude.{◌≡◌, ◌≤◌, length, IfOk};
ghost use Rattle.site_core.specs.declared.history.TheConstants.{MOST_ENTRIES};
ghost use Rattle.command_outputs.specs.Journals.{audited_output, verdict_line, verdict_output};

use crate::lines::line;
use crate::output::Output;
use compile_core::PuppetLanguage;
use history_audit::{Verdict, audit, verdict_text};
use pp_values::{Memory, Text};
use site_bundle::Site;
use site_core::History;
use std::alloc::Global;

/// The output to the audit of a history, of which each publication is compiled again.
pub fn audit_output(alloc: Global, history: &History<Site>) -> Result<Output, Memory>
    requires { length history.now.entries ≤ MOST_ENTRIES }
    ensures { IfOk result (λ output. output ≡ audited_output history.now.entries) }
{
    let verdict = audit(alloc, &PuppetLanguage, history)?;
    verdict_output(alloc, &verdict)
}

fn verdict_output(alloc: Global, verdict: &Verdict) -> Result<Output, Memory>
    ensures { IfOk result (λ output. output ≡ verdict_output verdict.now) }
{
    let text = verdict_line(alloc, verdict)?;
    match verdict {
        Verdict::Legal(_) => Ok(Output::Done(text)),
        Verdict::Broken { .. } => Ok(Output::Refused(text)),
    }
}

/// The line of a verdict.
pub(crate) fn verdict_line(alloc: Global, verdict: &Verdict) -> Result<Text, Memory>
    ensures { IfOk result (λ text. text ≡ verdict_line verdict.now) }
{
    line(alloc, verdict_text(alloc, verdict)?)
}
