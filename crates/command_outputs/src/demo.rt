//! The output of the demo: what its run comes to, in numbers.
ghost use Rattle.std.specs.Prelude.{◌≡◌, IfOk, length};
ghost use Rattle.command_outputs.specs.Demo as spec;
ghost use Rattle.command_outputs.specs.Outputs.{HasDemonstrated};

use crate::demo_site::{demo_requests, demo_site};
use crate::output::Output;
use crate::replies::output_of;
use compile_core::PuppetLanguage;
use pp_values::{Memory, Text};
use site_bundle::Site;
use site_core::{History, Reply, ReplyOf};
use site_replies::Replies;
use site_sequence::run_sequence;
use std::alloc::Global;

/// The output of the demo of so many nodes, whose requests are answered one after another.
pub fn demo_output(alloc: Global, nodes: u32) -> Result<Output, Memory>
    ensures { IfOk result (λ output. HasDemonstrated nodes output) }
{
    let site = demo_site(alloc, nodes)?;
    let requests = demo_requests(alloc, nodes)?;
    let came = run_sequence(alloc, &PuppetLanguage, site, &requests)?;
    let text = summary_text(alloc, nodes, &came.replies, &came.history)?;
    Ok(output_of(&came.replies, text))
}

fn summary_text(
    alloc: Global,
    nodes: u32,
    replies: &Replies<PuppetLanguage>,
    history: &History<Site>,
) -> Result<Text, Memory>
    ensures { IfOk result (λ text. text ≡ spec.summary_text nodes replies.now history.now.entries) }
{
    let served = count_served(replies.as_slice())?;
    let resources = count_held(replies.as_slice())?;
    summary_lines(alloc, nodes, served, resources, history.entries.len())
}

#[tactic(auto, unfolding(crate::specs::Demo::summary_lines))]
fn summary_lines(
    alloc: Global,
    nodes: u32,
    served: usize,
    resources: usize,
    entries: usize,
) -> Result<Text, Memory>
    ensures { IfOk result (λ text. text ≡ spec.summary_lines nodes served resources entries) }
{
    let lines = format!(in alloc;
        "nodes {nodes}\nserved {served}\nresources {resources}\nentries {entries}\n"
    )?;
    Ok(Text::new(lines))
}

/// How many of the replies have a catalog.
#[tactic(auto, unfolding(crate::specs::Demo::served_in_all))]
fn count_served(replies: &[Reply<PuppetLanguage>]) -> Result<usize, Memory>
    ensures { IfOk result (λ count. count ≡ spec.served_in_all replies.now) }
{
    let mut count: usize = 0;
    let mut left = replies;
    while let [reply, after @ ..] = left {
        let Some(more) = count.checked_add(served_in(reply)) else {
            return Err(Memory);
        };
        count = more;
        left = after;
    }
    Ok(count)
}

fn served_in(reply: &Reply<PuppetLanguage>) -> usize
    ensures { result ≡ spec.served_in reply.now }
{
    match reply {
        ReplyOf::Served { .. } => 1,
        _ => 0,
    }
}

/// How many resources all catalogs have. More than can be counted would find no room, and count as want of memory.
#[tactic(auto, unfolding(crate::specs::Demo::held_in_all))]
fn count_held(replies: &[Reply<PuppetLanguage>]) -> Result<usize, Memory>
    ensures { IfOk result (λ count. count ≡ spec.held_in_all replies.now) }
{
    let mut count: usize = 0;
    let mut left = replies;
    while let [reply, after @ ..] = left {
        let Some(more) = count.checked_add(held_in(reply)) else {
            return Err(Memory);
        };
        count = more;
        left = after;
    }
    Ok(count)
}

fn held_in(reply: &Reply<PuppetLanguage>) -> usize
    ensures { result ≡ spec.held_in reply.now }
{
    match reply {
        ReplyOf::Served { catalog, .. } => catalog.resources().len(),
        _ => 0,
    }
}
