//! The output to a history that is gone on with: the requests are answered, where it is legal.
ghost use Rattle.std.specs.Prelude.{◌≡◌, ◌≤◌, IfOk, IsTrue, length};
ghost use Rattle.compile_core.specs.Puppet.{puppet};
ghost use Rattle.res_core.specs.AskedFacts.{give_facts};
ghost use Rattle.site_batch.specs.declared.batch.TheConstants.{MOST_WORKERS};
ghost use Rattle.site_bundle.specs.declared.limits.TheConstants.{MOST_REQUESTS};
ghost use Rattle.site_core.specs.Legal.{Legal};
ghost use Rattle.site_core.specs.declared.history.TheConstants.{MOST_ENTRIES};
ghost use Rattle.command_outputs.specs.Journals as spec;
ghost use Rattle.command_outputs.specs.Resuming.{HasGoneOn, HasResumed, authors_line};
ghost use Rattle.command_outputs.specs.declared.output.Output.TheVariants as out;

use crate::audit::verdict_line;
use crate::lines::line;
use crate::output::Output;
use crate::replies::{output_of, run_text};
use compile_core::PuppetLanguage;
use history_audit::{Verdict, audit, says_legal_exactly};
use pp_values::{Memory, Text};
use res_core::Requests;
use site_batch::resume_batch;
use site_bundle::Site;
use site_core::{History, ResumeStop};
use site_io::Gate;
use std::alloc::Global;
use std::sync::Wait;
use std::thread::Threads;

/// The output to requests that so many workers share out, over this history: each entry of it is looked at again
/// before.
#[tactic(auto, using(crate::proofs::Resumed::legal_by))]
pub fn resume_output<G: Gate + Sync, R: Threads + Wait + Sync>(
    rt: &R,
    alloc: Global,
    history: History<Site>,
    requests: &Requests,
    workers: u32,
    gate: &G,
) -> Result<Output, Memory>
    requires few_entries { length history.entries ≤ MOST_ENTRIES }
    requires facts { IsTrue (give_facts requests.now) }
    requires short { length requests.now ≤ MOST_REQUESTS }
    requires some { 1 ≤ workers }
    requires few { workers ≤ MOST_WORKERS }
    ensures { IfOk result (λ output. HasResumed workers output history.entries requests.now) }
{
    let verdict = audit(alloc, &PuppetLanguage, &history)?;
    match verdict {
        Verdict::Legal(_) => {
            says_legal_exactly::<PuppetLanguage>();
            go_on(rt, alloc, history, requests, workers, gate)
        }
        Verdict::Broken { .. } => refuse_history(alloc, &verdict),
    }
}

/// The same of a legal history.
fn go_on<G: Gate + Sync, R: Threads + Wait + Sync>(
    rt: &R,
    alloc: Global,
    history: History<Site>,
    requests: &Requests,
    workers: u32,
    gate: &G,
) -> Result<Output, Memory>
    requires legal { Legal puppet history.entries }
    requires few_entries { length history.entries ≤ MOST_ENTRIES }
    requires facts { IsTrue (give_facts requests.now) }
    requires short { length requests.now ≤ MOST_REQUESTS }
    requires some { 1 ≤ workers }
    requires few { workers ≤ MOST_WORKERS }
    ensures { IfOk result (λ output. HasGoneOn workers output history.entries requests.now) }
{
    match resume_batch(rt, alloc, PuppetLanguage, history, requests, workers, gate) {
        Ok(came) => {
            let text = run_text(alloc, requests, &came.history, &came.replies)?;
            Ok(output_of(&came.replies, text))
        }
        Err(ResumeStop::Authors(author)) => refuse_author(alloc, author),
        Err(ResumeStop::Memory) => Err(Memory),
    }
}

/// The line of the verdict on a history that is not legal.
pub fn refuse_history(alloc: Global, verdict: &Verdict) -> Result<Output, Memory>
    ensures { IfOk result (λ output. output ≡ out.Fault (spec.verdict_line verdict.now)) }
{
    Ok(Output::Fault(verdict_line(alloc, verdict)?))
}

/// That the greatest author leaves too few numbers for new ones.
pub fn refuse_author(alloc: Global, author: u32) -> Result<Output, Memory>
    ensures { IfOk result (λ output. output ≡ out.Fault (authors_line author)) }
{
    Ok(Output::Fault(authors_line(alloc, author)?))
}

fn authors_line(alloc: Global, author: u32) -> Result<Text, Memory>
    ensures { IfOk result (λ text. text ≡ authors_line author) }
{
    line(alloc, Text::new(format!(in alloc; "authors {author}")?))
}
