//! The entries of a history as JSON.
ghost use Rattle.std.specs.Prelude.{◌≡◌, map, IfOk};
ghost use Rattle.json_values.specs.ValueForm.{form};
ghost use Rattle.pp_values.specs.Views.{view};
ghost use Rattle.serde_json.specs.Data.{array};
ghost use Rattle.serde_json.specs.View.{view as json_view, items_of};
ghost use Rattle.site_core.specs.EntryViews.{event_of};
ghost use Rattle.agent_docs.specs.ReportText.{report_data};
ghost use Rattle.site_docs.specs.SiteText.{site_data};
ghost use Rattle.site_docs.specs.JournalText.{export_data};
ghost use Rattle.site_docs.specs.JournalText.{opening_object as object_of_opening};
ghost use Rattle.site_docs.specs.JournalText.{publication_object as object_of_publication};
ghost use Rattle.site_docs.specs.JournalText.{deactivation_object as object_of_deactivation};
ghost use Rattle.site_docs.specs.JournalText.{deployment_object as object_of_deployment};
ghost use Rattle.site_docs.specs.JournalText.{filing_object as object_of_filing, count_object as object_of_count};
ghost use Rattle.site_docs.specs.JournalText.{entry_data};

use crate::export_forms::export_forms;
use crate::site_texts::site_form;
use agent_docs::report_form;
use agent_machine::Report;
use json_values::value_form;
use pp_values::{Memory, Text, Value};
use res_core::ExportSet;
use serde_json::{Value as Json, json};
use site_bundle::Site;
use site_core::Entry;
use std::alloc::{AllocError, Global};

/// What every entry that a call made is numbered by: its author, which of the author's entries and which of all it is.
#[derive(Clone, Copy)]
pub struct Numbers {
    author: u32,
    call: u32,
    entry: usize,
}

impl Numbers {
    pub fn new(author: u32, call: u32, entry: usize) -> Numbers
        ensures { result ≡ record { author = author; call = call; entry = entry } }
    {
        Numbers {
            author,
            call,
            entry,
        }
    }
}

/// The JSON of entry `number`.
#[tactic(auto, unfolding(crate::specs::JournalText::entry_data, crate::specs::JournalText::plain_data))]
pub fn entry_form(alloc: Global, number: usize, entry: &Entry<Site>) -> Result<Json, Memory>
    ensures { IfOk result (λ j. json_view j ≡ entry_data number (event_of entry.now)) }
{
    match entry {
        Entry::Open { site } => {
            let site: &Site = site;
            opening_form(alloc, number, site)
        }
        Entry::Publish {
            author,
            call,
            node,
            facts,
            k,
            set,
        } => {
            let numbers = Numbers::new(*author, *call, number);
            let set: &ExportSet = set;
            publication_form(alloc, numbers, node, facts, *k, set)
        }
        Entry::Deactivate { author, call, node } => {
            let numbers = Numbers::new(*author, *call, number);
            Ok(deactivation_object(alloc, numbers, node.as_str())?)
        }
        Entry::Deploy { author, call, site } => {
            let numbers = Numbers::new(*author, *call, number);
            let site: &Site = site;
            deployment_form(alloc, numbers, site)
        }
        Entry::Report {
            author,
            call,
            node,
            report,
        } => {
            let numbers = Numbers::new(*author, *call, number);
            let report: &Report = report;
            filing_form(alloc, numbers, node, report)
        }
    }
}

fn opening_form(alloc: Global, number: usize, site: &Site) -> Result<Json, Memory>
    ensures { IfOk result (λ j. json_view j ≡ object_of_opening number (site_data site.now)) }
{
    let site = site_form(alloc, site)?;
    Ok(opening_object(alloc, number, site)?)
}

fn publication_form(
    alloc: Global,
    numbers: Numbers,
    node: &Text,
    facts: &Value,
    k: u32,
    set: &ExportSet,
) -> Result<Json, Memory>
    ensures { IfOk result (λ j. json_view j
        ≡ object_of_publication numbers.author numbers.call numbers.entry (form (view facts.now)) k node.now
        (array (items_of (map export_data set.now.items)))) }
{
    let facts = value_form(alloc, facts)?;
    let set = Json::Array(export_forms(alloc, set.items.as_slice())?);
    Ok(publication_object(alloc, numbers, facts, k, node.as_str(), set)?)
}

fn deployment_form(alloc: Global, numbers: Numbers, site: &Site) -> Result<Json, Memory>
    ensures { IfOk result (λ j. json_view j
        ≡ object_of_deployment numbers.author numbers.call numbers.entry (site_data site.now)) }
{
    let site = site_form(alloc, site)?;
    Ok(deployment_object(alloc, numbers, site)?)
}

fn filing_form(
    alloc: Global,
    numbers: Numbers,
    node: &Text,
    report: &Report,
) -> Result<Json, Memory>
    ensures { IfOk result (λ j. json_view j
        ≡ object_of_filing numbers.author numbers.call numbers.entry node.now (report_data report.now)) }
{
    let report = report_form(alloc, report)?;
    Ok(filing_object(alloc, numbers, node.as_str(), report)?)
}

#[tactic(auto, unfolding(crate::specs::JournalText::opening_object))]
fn opening_object(alloc: Global, number: usize, site: Json) -> Result<Json, AllocError>
    ensures { IfOk result (λ j. json_view j ≡ object_of_opening number (json_view site)) }
{
    json!(in alloc; {"entry": number, "journal": 2u32, "kind": "open", "site": site})
}

#[tactic(auto, unfolding(crate::specs::JournalText::publication_object))]
fn publication_object(
    alloc: Global,
    numbers: Numbers,
    facts: Json,
    k: u32,
    node: &str,
    set: Json,
) -> Result<Json, AllocError>
    ensures { IfOk result (λ j. json_view j
        ≡ object_of_publication numbers.author numbers.call numbers.entry (json_view facts) k node.now
        (json_view set)) }
{
    json!(in alloc; {
        "author": numbers.author,
        "call": numbers.call,
        "entry": numbers.entry,
        "facts": facts,
        "k": k,
        "kind": "publish",
        "node": node,
        "set": set
    })
}

#[tactic(auto, unfolding(crate::specs::JournalText::deactivation_object))]
fn deactivation_object(alloc: Global, numbers: Numbers, node: &str) -> Result<Json, AllocError>
    ensures { IfOk result (λ j. json_view j
        ≡ object_of_deactivation numbers.author numbers.call numbers.entry node.now) }
{
    json!(in alloc; {
        "author": numbers.author,
        "call": numbers.call,
        "entry": numbers.entry,
        "kind": "deactivate",
        "node": node
    })
}

#[tactic(auto, unfolding(crate::specs::JournalText::deployment_object))]
fn deployment_object(alloc: Global, numbers: Numbers, site: Json) -> Result<Json, AllocError>
    ensures { IfOk result (λ j. json_view j
        ≡ object_of_deployment numbers.author numbers.call numbers.entry (json_view site)) }
{
    json!(in alloc; {
        "author": numbers.author,
        "call": numbers.call,
        "entry": numbers.entry,
        "kind": "deploy",
        "site": site
    })
}

/// The JSON of an entry by which a report is filed, with this in the place of the report.
#[tactic(auto, unfolding(crate::specs::JournalText::filing_object))]
pub fn filing_object(
    alloc: Global,
    numbers: Numbers,
    node: &str,
    report: Json,
) -> Result<Json, AllocError>
    ensures { IfOk result (λ j. json_view j
        ≡ object_of_filing numbers.author numbers.call numbers.entry node.now (json_view report)) }
{
    json!(in alloc; {
        "author": numbers.author,
        "call": numbers.call,
        "entry": numbers.entry,
        "kind": "report",
        "node": node,
        "report": report
    })
}

/// The JSON of the last line behind so many entries.
#[tactic(auto, unfolding(crate::specs::JournalText::count_object))]
pub fn count_form(alloc: Global, count: usize) -> Result<Json, AllocError>
    ensures { IfOk result (λ j. json_view j ≡ object_of_count count) }
{
    json!(in alloc; {"entries": count})
}
