//! Entries out of the JSON of their lines.
ghost use Rattle.std.specs.Prelude.{◌≡◌, codes, option_map, IfOk};
ghost use Rattle.pp_values.specs.Datum.{Datum};
ghost use Rattle.pp_values.specs.Views.{view};
ghost use Rattle.serde_json.specs.View.{view as json_view};
ghost use Rattle.site_core.specs.EntryViews.{event_of};
ghost use Rattle.agent_docs.specs.ReportReading.{report_in as report_of_line};
ghost use Rattle.journal_reading.specs.EntryReading.{number_at, maker_said, work_said, named_said, publication_said};
ghost use Rattle.journal_reading.specs.EntryReading.{removal_said, deployment_said, within, filing_of, filing_in, filing_said};
ghost use Rattle.journal_reading.specs.EntryReading.{said_as, entry_said};

use crate::cuts::{after_prefix, before_suffix};
use crate::exports::exports_said;
use crate::facts::facts_said;
use crate::sites::site_said;
use agent_docs::read_report;
use agent_machine::Report;
use json_documents::{DocStop, ended};
use pp_values::{Memory, Text, Value};
use res_core::{ExportSet, Exports};
use serde_json::Value as Json;
use site_bundle::Site;
use site_core::Entry;
use site_docs::unfiled_line;
use std::alloc::Global;
use std::sync::Arc;

/// Entry `number`, of a line that is this JSON.
pub fn entry_said(
    alloc: Global,
    number: u32,
    line: &str,
    json: &Json,
) -> Result<Option<Entry<Site>>, Memory>
    ensures { IfOk result (λ o. option_map event_of o ≡ entry_said number line.now (json_view json.now)) }
{
    match json.get("kind").and_then(Json::as_str) {
        Some(kind) => said_as(alloc, number, line, json, kind),
        None => Ok(None),
    }
}

fn said_as(
    alloc: Global,
    number: u32,
    line: &str,
    json: &Json,
    kind: &str,
) -> Result<Option<Entry<Site>>, Memory>
    ensures { IfOk result (λ o. option_map event_of o ≡ said_as number line.now (json_view json.now) kind.now) }
{
    if kind == "publish" {
        publication_said(alloc, json)
    } else if kind == "deactivate" {
        removal_said(alloc, json)
    } else if kind == "deploy" {
        deployment_said(alloc, json)
    } else if kind == "report" {
        filing_said(alloc, number, line, json)
    } else {
        Ok(None)
    }
}

#[tactic(auto, unfolding(crate::specs::EntryReading::publication_said))]
fn publication_said(alloc: Global, json: &Json) -> Result<Option<Entry<Site>>, Memory>
    ensures { IfOk result (λ o. option_map event_of o ≡ publication_said (json_view json.now)) }
{
    let Some(((author, call), node)) = named_said(alloc, json)? else {
        return Ok(None);
    };
    let Some((facts, (k, items))) = work_said(alloc, json)? else {
        return Ok(None);
    };
    let set = Arc::new(alloc, ExportSet { items })?;
    Ok(Some(Entry::Publish {
        author,
        call,
        node,
        facts,
        k,
        set,
    }))
}

/// The facts, how many entries were seen, and the exports.
fn work_said(alloc: Global, json: &Json) -> Result<Option<(Value, (u32, Exports))>, Memory>
    ensures { IfOk result (λ o. option_map (λ w. (view w.0, (w.1.0, w.1.1))) o ≡ work_said (json_view json.now)) }
{
    let Some(facts) = json.get("facts") else {
        return Ok(None);
    };
    let Some(facts) = facts_said(alloc, facts)? else {
        return Ok(None);
    };
    let (Some(k), Some(items)) = (
        number_at(json, "k"),
        json.get("set").and_then(Json::as_array),
    ) else {
        return Ok(None);
    };
    match exports_said(alloc, items.as_slice())? {
        Some(exports) => Ok(Some((facts, (k, exports)))),
        None => Ok(None),
    }
}

#[tactic(auto, unfolding(crate::specs::EntryReading::removal_said))]
fn removal_said(alloc: Global, json: &Json) -> Result<Option<Entry<Site>>, Memory>
    ensures { IfOk result (λ o. option_map event_of o ≡ removal_said (json_view json.now)) }
{
    match named_said(alloc, json)? {
        Some(((author, call), node)) => Ok(Some(Entry::Deactivate { author, call, node })),
        None => Ok(None),
    }
}

#[tactic(auto, unfolding(crate::specs::EntryReading::deployment_said))]
fn deployment_said(alloc: Global, json: &Json) -> Result<Option<Entry<Site>>, Memory>
    ensures { IfOk result (λ o. option_map event_of o ≡ deployment_said (json_view json.now)) }
{
    let (Some((author, call)), Some(site)) = (maker_said(json), json.get("site")) else {
        return Ok(None);
    };
    match site_said(alloc, site)? {
        Some(site) => {
            let site = Arc::new(alloc, site)?;
            Ok(Some(Entry::Deploy { author, call, site }))
        }
        None => Ok(None),
    }
}

#[tactic(auto, unfolding(crate::specs::EntryReading::filing_said))]
fn filing_said(
    alloc: Global,
    number: u32,
    line: &str,
    json: &Json,
) -> Result<Option<Entry<Site>>, Memory>
    ensures { IfOk result (λ o. option_map event_of o ≡ filing_said number line.now (json_view json.now)) }
{
    match named_said(alloc, json)? {
        Some(((author, call), node)) => filing_in(alloc, number, line, (author, call), node),
        None => Ok(None),
    }
}

fn filing_in(
    alloc: Global,
    number: u32,
    line: &str,
    maker: (u32, u32),
    node: Text,
) -> Result<Option<Entry<Site>>, Memory>
    ensures { IfOk result (λ o. option_map event_of o ≡ filing_in number line.now (maker, node)) }
{
    let (author, call) = maker;
    let unfiled = unfiled_line(alloc, author, call, number as usize, node.as_str())?;
    let Some(text) = within(unfiled.as_str(), line) else {
        return Ok(None);
    };
    match report_in(alloc, text)? {
        Some(report) => filing_of(alloc, maker, node, report),
        None => Ok(None),
    }
}

/// The entry by which a report is filed, which is for the report's own node.
fn filing_of(
    alloc: Global,
    maker: (u32, u32),
    node: Text,
    report: Report,
) -> Result<Option<Entry<Site>>, Memory>
    ensures { IfOk result (λ o. option_map event_of o ≡ filing_of (maker, node) report) }
{
    let (author, call) = maker;
    if !report.node.is(node.as_str()) {
        return Ok(None);
    }
    let report = Arc::new(alloc, report)?;
    Ok(Some(Entry::Report {
        author,
        call,
        node,
        report,
    }))
}

/// What a line has in the place of the `null` in another one.
fn within<'a>(without: &str, line: &'a str) -> Option<&'a str>
    ensures { option_map (λ t. t.now) result ≡ within without.now line.now }
{
    let front = before_suffix(without, "null}")?;
    let rest = after_prefix(line, front)?;
    before_suffix(rest, "}")
}

/// The report whose line this is.
fn report_in(alloc: Global, line: &str) -> Result<Option<Report>, Memory>
    ensures { IfOk result (λ o. o ≡ report_of_line line.now) }
{
    let text = ended(alloc, Text::from_str(alloc, line)?)?;
    match read_report(alloc, text.as_str()) {
        Ok(report) => Ok(Some(report)),
        Err(DocStop::Bad(_)) => Ok(None),
        Err(DocStop::Memory) => Err(Memory),
    }
}

/// Who made the entry, and of which node.
fn named_said(alloc: Global, json: &Json) -> Result<Option<((u32, u32), Text)>, Memory>
    ensures { IfOk result (λ o. o ≡ named_said (json_view json.now)) }
{
    let (Some(maker), Some(node)) = (maker_said(json), json.get("node").and_then(Json::as_str))
    else {
        return Ok(None);
    };
    let node = Text::from_str(alloc, node)?;
    Ok(Some((maker, node)))
}

/// An author, and how many entries this author made before.
fn maker_said(json: &Json) -> Option<(u32, u32)>
    ensures { result ≡ maker_said (json_view json.now) }
{
    let author = number_at(json, "author")?;
    let call = number_at(json, "call")?;
    Some((author, call))
}

/// The integer of 32 bits without a sign that stands there.
fn number_at(json: &Json, key: &str) -> Option<u32>
    ensures { result ≡ number_at key.now (json_view json.now) }
{
    match json.get(key).and_then(Json::as_u64) {
        Some(number) if number < 4_294_967_296 => Some(number as u32),
        _ => None,
    }
}
