//! What is told of requests that were answered: the history that they made, and the replies.
ghost use Rattle.std.specs.Prelude.{◌≡◌, ◌≤◌, ◌++◌, IfOk, OnOk, length, string_bytes};
ghost use Rattle.std.specs.List.{list_any};
ghost use Rattle.res_core.specs.RequestViews.{all_asked};
ghost use Rattle.site_bundle.specs.declared.limits.TheConstants.{MOST_REQUESTS};
ghost use Rattle.site_sequence.specs.SequenceLaws.{is_memory};
ghost use Rattle.command_outputs.specs.Outputs.{is_refusal, output_of, run_text, reply_lines};

use crate::output::Output;
use compile_core::PuppetLanguage;
use pp_values::{Memory, Text};
use res_core::{Request, Requests};
use site_bundle::Site;
use site_core::{History, Language, Reply, ReplyOf};
use site_docs::{write_journal, write_reply};
use site_replies::Replies;
use std::alloc::Global;

/// The journal, and then the lines of the replies.
pub(crate) fn run_text(
    alloc: Global,
    requests: &Requests,
    history: &History<Site>,
    replies: &Replies<PuppetLanguage>,
) -> Result<Text, Memory>
    requires { length requests.now ≤ MOST_REQUESTS }
    ensures { IfOk result (λ text. text ≡ run_text requests.now replies.now history.now.entries) }
{
    let mut out = write_journal(alloc, history)?.into_string(alloc)?;
    write_replies(alloc, &mut out, requests.as_slice(), replies.as_slice())?;
    Ok(Text::new(out))
}

#[tactic(auto, unfolding(crate::specs::Outputs::reply_lines))]
fn write_replies(
    alloc: Global,
    out: &mut String,
    requests: &[Request],
    replies: &[Reply<PuppetLanguage>],
) -> Result<(), Memory>
    requires { length requests.now ≤ MOST_REQUESTS }
    ensures { OnOk result (string_bytes out.new ≡ string_bytes out.old ++
        reply_lines 0 (all_asked requests.now) replies.now) }
{
    let mut number: u32 = 0;
    let mut asked = requests;
    let mut left = replies;
    while let [request, others @ ..] = asked {
        let [reply, after @ ..] = left else {
            break;
        };
        let line = write_reply(alloc, &PuppetLanguage, number, request, reply)?;
        out.push_str(line.as_str())?;
        number += 1;
        asked = others;
        left = after;
    }
    Ok(())
}

/// The output, by what its replies tell of.
pub(crate) fn output_of<L: Language>(replies: &Replies<L>, text: Text) -> Output
    ensures { result ≡ output_of replies.now text }
{
    if want_memory(replies.as_slice()) {
        return Output::Short(text);
    }
    if tell_of_refusal(replies.as_slice()) {
        return Output::Refused(text);
    }
    Output::Done(text)
}

fn want_memory<C, F>(replies: &[ReplyOf<C, F>]) -> bool
    ensures { result ≡ list_any is_memory replies.now }
{
    replies.iter().any(is_memory)
}

fn tell_of_refusal<C, F>(replies: &[ReplyOf<C, F>]) -> bool
    ensures { result ≡ list_any is_refusal replies.now }
{
    replies.iter().any(is_refusal)
}

fn is_memory<C, F>(reply: &ReplyOf<C, F>) -> bool
    ensures { result ≡ is_memory reply.now }
{
    match reply {
        ReplyOf::Memory => true,
        ReplyOf::Served { .. }
        | ReplyOf::Refused { .. }
        | ReplyOf::HistoryFull { .. }
        | ReplyOf::SeenAhead { .. }
        | ReplyOf::UnknownNode { .. }
        | ReplyOf::Deactivated { .. }
        | ReplyOf::Deployed { .. }
        | ReplyOf::Reported { .. } => false,
    }
}

/// Whether what was asked for can't be had.
fn is_refusal<C, F>(reply: &ReplyOf<C, F>) -> bool
    ensures { result ≡ is_refusal reply.now }
{
    match reply {
        ReplyOf::Refused { .. }
        | ReplyOf::HistoryFull { .. }
        | ReplyOf::SeenAhead { .. }
        | ReplyOf::UnknownNode { .. } => true,
        ReplyOf::Served { .. }
        | ReplyOf::Deactivated { .. }
        | ReplyOf::Deployed { .. }
        | ReplyOf::Reported { .. }
        | ReplyOf::Memory => false,
    }
}
