//! The output to a site whose exports are looked at for a fixed point.
ghost use Rattle.std.specs.Prelude.{◌≡◌, ◌≤◌, ◌++◌, IfOk, OnOk, map, string_bytes, option_map};
ghost use Rattle.std.specs.Arc.{arc_value};
ghost use Rattle.compile_core.specs.Puppet.{listed};
ghost use Rattle.history_tools.specs.Settles.{AreListed};
ghost use Rattle.history_tools.specs.declared.settling.TheConstants.{MOST_ROUNDS};
ghost use Rattle.pp_values.specs.Settings.{setting_names};
ghost use Rattle.site_batch.specs.declared.batch.TheConstants.{MOST_WORKERS};
ghost use Rattle.command_outputs.specs.Settling as spec;
ghost use Rattle.command_outputs.specs.Settling.{HasSettled};

use crate::compiled::fault_line;
use crate::lines::line;
use crate::output::Output;
use compile_core::PuppetLanguage;
use history_tools::{SettleEnd, settle, settled_is_meant};
use pp_values::{Fault, Memory, Text, Texts, Value};
use res_core::ExportSet;
use site_bundle::{Bundle, Site};
use site_core::History;
use site_docs::{set_text, write_journal};
use site_io::Gate;
use std::alloc::Global;
use std::collections::BTreeMap;
use std::sync::{Arc, Wait};
use std::thread::Threads;

/// The output to a bundle, of which nothing is asked: each round compiles every node that its site lists.
pub fn settle_output<G: Gate + Sync, R: Threads + Wait + Sync>(
    rt: &R,
    alloc: Global,
    bundle: Bundle,
    rounds: u32,
    workers: u32,
    gate: &G,
) -> Result<Output, Memory>
    requires once { 1 ≤ rounds }
    requires bounded { rounds ≤ MOST_ROUNDS }
    requires some { 1 ≤ workers }
    requires few { workers ≤ MOST_WORKERS }
    ensures { IfOk result (λ output. HasSettled rounds workers output bundle) }
{
    let Bundle {
        site,
        requests: _requests,
        machine: _machine,
    } = bundle;
    let nodes = node_names(alloc, &site)?;
    let came = settle(
        rt,
        alloc,
        PuppetLanguage,
        site,
        &nodes,
        rounds,
        workers,
        gate,
    )?;
    settled_is_meant::<PuppetLanguage>();
    let text = settled_text(alloc, &came.history, came.rounds)?;
    end_output(alloc, text, &came.end)
}

/// The names of the nodes that a site lists.
fn node_names(alloc: Global, site: &Site) -> Result<Texts, Memory>
    ensures names { IfOk result (λ names. names ≡ setting_names site.now.nodes) }
    ensures listed { IfOk result (λ names. AreListed listed site.now names) }
{
    names_in(alloc, site.nodes().as_map())
}

fn names_in(alloc: Global, nodes: &BTreeMap<Text, Value>) -> Result<Texts, Memory>
    ensures { IfOk result (λ names. names ≡ map (λ e. e.0) nodes.now.entries) }
{
    let mut names = Vec::new(alloc);
    for (name, _) in nodes {
        names.push(name.copy(alloc)?)?;
    }
    Ok(Texts::from_vec(names))
}

/// The journal, and the line of the rounds.
fn settled_text(alloc: Global, history: &History<Site>, rounds: u32) -> Result<Text, Memory>
    ensures { IfOk result (λ text. text ≡ spec.settled_text history.now.entries rounds) }
{
    let mut text = write_journal(alloc, history)?.into_string(alloc)?;
    let rounds = rounds_line(alloc, rounds)?;
    text.push_str(rounds.as_str())?;
    Ok(Text::new(text))
}

fn rounds_line(alloc: Global, rounds: u32) -> Result<Text, Memory>
    ensures { IfOk result (λ text. text ≡ spec.rounds_line rounds) }
{
    line(alloc, Text::new(format!(in alloc; "rounds {rounds}")?))
}

/// The output, by how the search ended.
fn end_output(alloc: Global, text: Text, end: &SettleEnd<Fault>) -> Result<Output, Memory>
    ensures { IfOk result (λ output. output ≡ spec.end_output text end.now) }
{
    match end {
        SettleEnd::Settled => Ok(Output::Done(text)),
        SettleEnd::NotSettled {
            node,
            before,
            after,
        } => {
            let line = unsettled_line(alloc, node.as_str(), before, after)?;
            Ok(Output::Unsettled { text, line })
        }
        SettleEnd::Refused { fault, .. } => {
            let line = fault_line(alloc, fault)?;
            Ok(Output::Faulty { text, line })
        }
        SettleEnd::Full { length } => {
            let line = full_line(alloc, *length)?;
            Ok(Output::Faulty { text, line })
        }
    }
}

/// The line of a node whose set the last round changed.
fn unsettled_line(
    alloc: Global,
    node: &str,
    before: &Option<Arc<ExportSet>>,
    after: &Arc<ExportSet>,
) -> Result<Text, Memory>
    ensures { IfOk result (λ text. text ≡ spec.unsettled_line node.now (option_map arc_value before.now)
        (arc_value after.now)) }
{
    let before = set_or_none(alloc, before)?;
    let after = set_text(alloc, after)?;
    sets_line(alloc, node, before.as_str(), after.as_str())
}

fn sets_line(alloc: Global, node: &str, before: &str, after: &str) -> Result<Text, Memory>
    ensures { IfOk result (λ text. text ≡ spec.sets_line node.now before.now after.now) }
{
    line(
        alloc,
        Text::new(format!(in alloc; "not settled {node} {before} {after}")?),
    )
}

fn set_or_none(alloc: Global, set: &Option<Arc<ExportSet>>) -> Result<Text, Memory>
    ensures { IfOk result (λ text. text ≡ spec.set_or_none (option_map arc_value set.now)) }
{
    match set {
        Some(set) => set_text(alloc, set),
        None => Text::from_str(alloc, "none"),
    }
}

fn full_line(alloc: Global, length: u32) -> Result<Text, Memory>
    ensures { IfOk result (λ text. text ≡ spec.full_line length) }
{
    line(alloc, Text::new(format!(in alloc; "full {length}")?))
}
