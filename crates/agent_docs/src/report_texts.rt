//! Reports as text.
ghost use Rattle.std.specs.Prelude.{◌≡◌, ◌∷◌, ◌++◌, [], map, IfOk, string_bytes};
ghost use Rattle.std.specs.List.{count_by};
ghost use Rattle.serde_json.specs.View.{view as json_view};
ghost use Rattle.serde_json.specs.Written.{compact_text};
ghost use Rattle.pp_values.specs.Words.{reference_text as text_of_reference};
ghost use Rattle.agent_docs.specs.ReportLaws.{ReportsAreToldApart};
ghost use Rattle.agent_docs.specs.ReportText.{status_text, is_noop, is_failed, has_changed, has_failed, was_noop, fault_data, line_object as object_of_line, line_data, report_object as object_of_report, report_data, report_text, first_object as object_of_first, first_data};

use agent_machine::{Report, ReportLine, Status};
use json_documents::{ended, json_text, text_forms};
use pp_values::{Memory, Reference, Text, write_reference};
use serde_json::{Value as Json, json};
use std::alloc::{AllocError, Global};

/// The report as a document: one line of compact JSON, with a line feed at its end. What it counts is counted of its
/// lines.
pub fn write_report(alloc: Global, report: &Report) -> Result<Text, Memory>
    ensures { IfOk result (λ t. t ≡ report_text report.now ++ 10 ∷ []) }
{
    ended(alloc, report_line(alloc, report)?)
}

/// No two reports have one text.
pub fn reports_are_told_apart()
    ensures { ReportsAreToldApart }
{}

/// The same without the line feed.
#[tactic(auto, using(crate::proofs::ReportFloats::report_no_float))]
pub(crate) fn report_line(alloc: Global, report: &Report) -> Result<Text, Memory>
    ensures { IfOk result (λ t. t ≡ report_text report.now) }
{
    let form = report_form(alloc, report)?;
    json_text(alloc, &form)
}

/// The report as JSON.
#[tactic(auto, unfolding(crate::specs::ReportText::report_data))]
pub fn report_form(alloc: Global, report: &Report) -> Result<Json, Memory>
    ensures { IfOk result (λ j. json_view j ≡ report_data report.now) }
{
    let lines = report.lines.as_slice();
    let counts = Counts {
        changed: count_changed(lines),
        failed: count_failed(lines),
        noop: count_noop(lines),
    };
    let lines = Json::Array(line_forms(alloc, lines)?);
    Ok(report_object(alloc, counts, report.node.as_str(), lines)?)
}

/// The line of the report in the first version, which no writer gives.
#[tactic(auto, using(crate::proofs::ReportFloats::first_no_float))]
pub(crate) fn first_line(alloc: Global, report: &Report) -> Result<Text, Memory>
    ensures { IfOk result (λ t. t ≡ compact_text (first_data report.now)) }
{
    let form = first_form(alloc, report)?;
    json_text(alloc, &form)
}

#[tactic(auto, unfolding(crate::specs::ReportText::first_data))]
fn first_form(alloc: Global, report: &Report) -> Result<Json, Memory>
    ensures { IfOk result (λ j. json_view j ≡ first_data report.now) }
{
    let lines = report.lines.as_slice();
    let changed = count_changed(lines);
    let failed = count_failed(lines);
    let lines = Json::Array(line_forms(alloc, lines)?);
    Ok(first_object(alloc, changed, failed, report.node.as_str(), lines)?)
}

#[tactic(auto, unfolding(crate::specs::ReportText::first_object))]
fn first_object(
    alloc: Global,
    changed: usize,
    failed: usize,
    node: &str,
    lines: Json,
) -> Result<Json, AllocError>
    ensures { IfOk result (λ j. json_view j ≡ object_of_first changed failed node.now (json_view lines)) }
{
    json!(in alloc; {
        "changed": changed,
        "failed": failed,
        "node": node,
        "report": 1u32,
        "resources": lines
    })
}

/// How many lines of a report there are of some kinds.
#[derive(Clone, Copy)]
struct Counts {
    changed: usize,
    failed: usize,
    noop: usize,
}

fn count_changed(lines: &[ReportLine]) -> usize
    ensures { result ≡ count_by has_changed lines.now }
{
    lines.iter().filter(|line| has_changed(line)).count()
}

fn count_failed(lines: &[ReportLine]) -> usize
    ensures { result ≡ count_by has_failed lines.now }
{
    lines.iter().filter(|line| is_failed(line.status)).count()
}

fn count_noop(lines: &[ReportLine]) -> usize
    ensures { result ≡ count_by was_noop lines.now }
{
    lines.iter().filter(|line| is_noop(line.status)).count()
}

/// Whether there are changes or a refresh, which were not only looked at.
fn has_changed(line: &ReportLine) -> bool
    ensures { result ≡ has_changed line.now }
{
    !is_noop(line.status) && (line.changes.len() > 0 || line.refreshed)
}

fn is_failed(status: Status) -> bool
    ensures { result ≡ is_failed status }
{
    match status {
        Status::Failed => true,
        Status::Unchanged | Status::Changed | Status::Skipped | Status::Noop => false,
    }
}

pub(crate) fn is_noop(status: Status) -> bool
    ensures { result ≡ is_noop status }
{
    match status {
        Status::Noop => true,
        Status::Unchanged | Status::Changed | Status::Failed | Status::Skipped => false,
    }
}

#[tactic(auto, unfolding(crate::specs::ReportText::report_object))]
fn report_object(alloc: Global, counts: Counts, node: &str, lines: Json) -> Result<Json, AllocError>
    ensures { IfOk result (λ j. json_view j
        ≡ object_of_report counts.changed counts.failed node.now counts.noop (json_view lines)) }
{
    json!(in alloc; {
        "changed": counts.changed,
        "failed": counts.failed,
        "node": node,
        "noop": counts.noop,
        "report": 2u32,
        "resources": lines
    })
}

fn line_forms(alloc: Global, lines: &[ReportLine]) -> Result<Vec<Json>, Memory>
    ensures { IfOk result (λ v. map json_view v.items ≡ map line_data lines.now) }
{
    let mut values = Vec::new(alloc);
    let mut left = lines;
    while let [line, after @ ..] = left {
        values.push(line_form(alloc, line)?)?;
        left = after;
    }
    Ok(values)
}

#[tactic(auto, unfolding(crate::specs::ReportText::line_data))]
fn line_form(alloc: Global, line: &ReportLine) -> Result<Json, Memory>
    ensures { IfOk result (λ j. json_view j ≡ line_data line.now) }
{
    let changes = Json::Array(text_forms(alloc, line.changes.as_slice())?);
    let fault = fault_form(alloc, &line.fault)?;
    let reference = reference_text(alloc, &line.item)?;
    Ok(line_object(
        alloc,
        changes,
        fault,
        reference.as_str(),
        line.refreshed,
        line.status,
    )?)
}

fn fault_form(alloc: Global, fault: &Option<Text>) -> Result<Json, AllocError>
    ensures { IfOk result (λ j. json_view j ≡ fault_data fault.now) }
{
    match fault {
        Some(text) => Json::try_from_str(alloc, text.as_str()),
        None => Ok(Json::Null),
    }
}

fn reference_text(alloc: Global, reference: &Reference) -> Result<Text, Memory>
    ensures { IfOk result (λ t. t ≡ text_of_reference reference.now) }
{
    let mut out = String::new(alloc);
    write_reference(&mut out, reference)?;
    Ok(Text::new(out))
}

#[tactic(auto, unfolding(crate::specs::ReportText::line_object))]
fn line_object(
    alloc: Global,
    changes: Json,
    fault: Json,
    reference: &str,
    refreshed: bool,
    status: Status,
) -> Result<Json, AllocError>
    ensures { IfOk result (λ j. json_view j
        ≡ object_of_line (json_view changes) (json_view fault) reference.now refreshed (status_text status)) }
{
    let status = status_text(status);
    json!(in alloc; {
        "changes": changes,
        "fault": fault,
        "ref": reference,
        "refreshed": refreshed,
        "status": status
    })
}

fn status_text(status: Status) -> &'static str
    ensures { result.now ≡ status_text status }
{
    match status {
        Status::Unchanged => "unchanged",
        Status::Changed => "changed",
        Status::Failed => "failed",
        Status::Skipped => "skipped",
        Status::Noop => "noop",
    }
}
