//! Reports out of their texts.
ghost use Rattle.std.specs.Prelude.{◌≡◌, not, codes, option_map, IfOk};
ghost use Rattle.std.specs.List.{list_all};
ghost use Rattle.serde_json.specs.View.{items_view, view};
ghost use Rattle.json_documents.specs.LinesOfText.{Answers, ReadsDocument, cut_at, read_one_line};
ghost use Rattle.agent_docs.specs.ReportText.{was_noop, IsReportText};
ghost use Rattle.agent_docs.specs.ReportReading.{unclosed, reference_said, status_said, texts_said, text_at as text_under, item_said, changes_said, line_said, lines_said, report_said, says_first, text_in, is_written, report_written, report_in};

use crate::report_texts::{first_line, is_noop, report_line};
use agent_machine::{Report, ReportLine, ReportLines, Status};
use json_documents::{DocStop, cut_line, read_json};
use pp_values::{Kind, Memory, Reference, Text, Texts};
use serde_json::Value as Json;
use std::alloc::Global;

/// The report that this text is written for, in either version.
pub fn read_report(alloc: Global, text: &str) -> Result<Report, DocStop>
    ensures { ReadsDocument IsReportText text.now result }
{
    read_whole(alloc, text)
}

fn read_whole(alloc: Global, text: &str) -> Result<Report, DocStop>
    ensures { Answers result (read_one_line report_in text.now) }
{
    let Some((line, after)) = cut_line(text) else {
        return Err(DocStop::Bad(1));
    };
    let Some(report) = report_in(alloc, line)? else {
        return Err(DocStop::Bad(1));
    };
    if after.is_empty() {
        Ok(report)
    } else {
        Err(DocStop::Bad(2))
    }
}

/// The report whose line this is.
fn report_in(alloc: Global, line: &str) -> Result<Option<Report>, Memory>
    ensures { IfOk result (λ o. o ≡ report_in line.now) }
{
    match read_json(alloc, line)? {
        Some(json) => report_written(alloc, line, &json),
        None => Ok(None),
    }
}

/// The report that the JSON says, where this is its line.
fn report_written(alloc: Global, line: &str, json: &Json) -> Result<Option<Report>, Memory>
    ensures { IfOk result (λ o. o ≡ report_written line.now (view json.now)) }
{
    match report_said(alloc, json)? {
        Some(report) => {
            if is_written(alloc, says_first(json), line, &report)? {
                Ok(Some(report))
            } else {
                Ok(None)
            }
        }
        None => Ok(None),
    }
}

/// Whether this is the line of the report in that version.
fn is_written(alloc: Global, first: bool, line: &str, report: &Report) -> Result<bool, Memory>
    ensures { IfOk result (λ b. b ≡ is_written first line.now report.now) }
{
    if first && !is_first(report.lines.as_slice()) {
        return Ok(false);
    }
    Ok(text_in(alloc, first, report)?.is(line))
}

fn text_in(alloc: Global, first: bool, report: &Report) -> Result<Text, Memory>
    ensures { IfOk result (λ t. t ≡ text_in first report.now) }
{
    if first {
        first_line(alloc, report)
    } else {
        report_line(alloc, report)
    }
}

/// Whether no resource was only looked at.
fn is_first(lines: &[ReportLine]) -> bool
    ensures { result ≡ list_all (λ l. not (was_noop l)) lines.now }
{
    let mut left = lines;
    while let [line, after @ ..] = left {
        if is_noop(line.status) {
            return false;
        }
        left = after;
    }
    true
}

#[tactic(auto, unfolding(crate::specs::ReportReading::says_first))]
fn says_first(json: &Json) -> bool
    ensures { result ≡ says_first (view json.now) }
{
    match json.get("report").and_then(Json::as_u64) {
        Some(version) => version == 1,
        None => false,
    }
}

#[tactic(auto, unfolding(crate::specs::ReportReading::report_said))]
fn report_said(alloc: Global, json: &Json) -> Result<Option<Report>, Memory>
    ensures { IfOk result (λ o. o ≡ report_said (view json.now)) }
{
    let Some(node) = json.get("node").and_then(Json::as_str) else {
        return Ok(None);
    };
    let Some(items) = json.get("resources").and_then(Json::as_array) else {
        return Ok(None);
    };
    let Some(lines) = lines_said(alloc, items.as_slice())? else {
        return Ok(None);
    };
    let node = Text::from_str(alloc, node)?;
    Ok(Some(Report { node, lines }))
}

fn lines_said(alloc: Global, items: &[Json]) -> Result<Option<ReportLines>, Memory>
    ensures { IfOk result (λ o. o ≡ lines_said (items_view items.now)) }
{
    let mut lines = ReportLines::new(alloc);
    let mut left = items;
    while let [item, after @ ..] = left {
        match line_said(alloc, item)? {
            Some(line) => lines.push(line)?,
            None => return Ok(None),
        }
        left = after;
    }
    Ok(Some(lines))
}

#[tactic(auto, unfolding(crate::specs::ReportReading::line_said))]
fn line_said(alloc: Global, json: &Json) -> Result<Option<ReportLine>, Memory>
    ensures { IfOk result (λ o. o ≡ line_said (view json.now)) }
{
    let Some((item, (status, refreshed))) = item_said(alloc, json)? else {
        return Ok(None);
    };
    let Some(changes) = changes_said(alloc, json)? else {
        return Ok(None);
    };
    let fault = fault_said(alloc, json)?;
    Ok(Some(ReportLine {
        item,
        status,
        changes,
        refreshed,
        fault,
    }))
}

fn item_said(alloc: Global, json: &Json) -> Result<Option<(Reference, (Status, bool))>, Memory>
    ensures { IfOk result (λ o. o ≡ item_said (view json.now)) }
{
    let Some(reference) = json.get("ref").and_then(Json::as_str) else {
        return Ok(None);
    };
    let Some(status) = json.get("status").and_then(Json::as_str) else {
        return Ok(None);
    };
    let (Some(status), Some(refreshed)) = (
        status_said(status),
        json.get("refreshed").and_then(Json::as_bool),
    ) else {
        return Ok(None);
    };
    match reference_said(alloc, reference)? {
        Some(reference) => Ok(Some((reference, (status, refreshed)))),
        None => Ok(None),
    }
}

fn changes_said(alloc: Global, json: &Json) -> Result<Option<Texts>, Memory>
    ensures { IfOk result (λ o. o ≡ changes_said (view json.now)) }
{
    match json.get("changes").and_then(Json::as_array) {
        Some(items) => texts_said(alloc, items.as_slice()),
        None => Ok(None),
    }
}

fn texts_said(alloc: Global, items: &[Json]) -> Result<Option<Texts>, Memory>
    ensures { IfOk result (λ o. o ≡ texts_said (items_view items.now)) }
{
    let mut texts = Texts::new(alloc);
    let mut left = items;
    while let [item, after @ ..] = left {
        match item.as_str() {
            Some(text) => texts.push(Text::from_str(alloc, text)?)?,
            None => return Ok(None),
        }
        left = after;
    }
    Ok(Some(texts))
}

fn fault_said(alloc: Global, json: &Json) -> Result<Option<Text>, Memory>
    ensures { IfOk result (λ o. o ≡ text_under (codes "fault") (view json.now)) }
{
    match json.get("fault").and_then(Json::as_str) {
        Some(text) => Ok(Some(Text::from_str(alloc, text)?)),
        None => Ok(None),
    }
}

fn status_said(text: &str) -> Option<Status>
    ensures { result ≡ status_said text.now }
{
    if text == "unchanged" {
        Some(Status::Unchanged)
    } else if text == "changed" {
        Some(Status::Changed)
    } else if text == "failed" {
        Some(Status::Failed)
    } else if text == "skipped" {
        Some(Status::Skipped)
    } else if text == "noop" {
        Some(Status::Noop)
    } else {
        None
    }
}

/// The reference that is printed so.
fn reference_said(alloc: Global, text: &str) -> Result<Option<Reference>, Memory>
    ensures { IfOk result (λ o. o ≡ reference_said text.now) }
{
    let Some((kind, title)) = cut_title(text) else {
        return Ok(None);
    };
    let Some(title) = unclosed(title) else {
        return Ok(None);
    };
    let kind = Text::new(kind.to_ascii_lowercase(alloc)?);
    match Kind::from_text(kind) {
        Some(kind) => {
            let title = Text::from_str(alloc, title)?;
            Ok(Some(Reference { kind, title }))
        }
        None => Ok(None),
    }
}

fn cut_title(text: &str) -> Option<(&str, &str)>
    ensures { option_map (λ p. (p.0.now, p.1.now)) result ≡ cut_at 91 text.now }
{
    text.split_once('[')
}

fn unclosed(text: &str) -> Option<&str>
    ensures { option_map (λ t. t.now) result ≡ unclosed text.now }
{
    text.strip_suffix(']')
}
