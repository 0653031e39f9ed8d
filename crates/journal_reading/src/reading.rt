//! Histories out of their texts.
ghost use Rattle.std.specs.Prelude.{◌≡◌, ◌++◌, ◌<◌, ◌+◌, true, option_map, IfOk};
ghost use Rattle.serde_json.specs.View.{view as json_view};
ghost use Rattle.site_core.specs.EntryViews.{event_of};
ghost use Rattle.json_documents.specs.LineDocuments.{result_map};
ghost use Rattle.json_documents.specs.LinesOfText.{ReadsDocument};
ghost use Rattle.journal_reading.specs.Journals.{IsJournalText};
ghost use Rattle.journal_reading.specs.JournalLines.{entries as so_many, all as finished, may_stand, says_first};
ghost use Rattle.journal_reading.specs.JournalLines.{if_opening, opening_said, opening_in, is_written, if_written};
ghost use Rattle.journal_reading.specs.JournalLines.{entry_written, entry_in, is_last, entries_from, journal_read};
ghost use Rattle.journal_reading.specs.JournalLines.{Gives};

use crate::entries::entry_said;
use crate::opening_lines::opening_line;
use crate::sites::site_said;
use json_documents::{DocStop, cut_line, read_json};
use pp_values::Memory;
use serde_json::Value as Json;
use site_bundle::Site;
use site_core::{Entries, Entry, History};
use site_docs::{count_line, entry_line};
use std::alloc::Global;
use std::sync::Arc;

/// The history whose journal this text is, in either version.
pub fn read_journal(alloc: Global, text: &str) -> Result<History<Site>, DocStop>
    ensures { ReadsDocument (λ h. IsJournalText h.entries) text.now result }
{
    read_whole(alloc, text)
}

fn read_whole(alloc: Global, text: &str) -> Result<History<Site>, DocStop>
    ensures { Gives (λ h. h.entries) result (journal_read text.now) }
{
    let Some((line, after)) = cut_line(text) else {
        return Err(DocStop::Bad(1));
    };
    match opening_in(alloc, line)? {
        Some((first, site)) => {
            let site = Arc::new(alloc, site)?;
            let entries = Entries::open(alloc, site)?;
            read_behind(alloc, first, entries, after)
        }
        None => Err(DocStop::Bad(1)),
    }
}

/// The history of these entries, which are one, and of those of the lines behind theirs.
fn read_behind(
    alloc: Global,
    first: bool,
    opened: Entries<Site>,
    text: &str,
) -> Result<History<Site>, DocStop>
    ensures { Gives (λ h. h.entries) result
        (result_map (λ es. opened ++ es) (entries_from (so_many first 1) 1 text.now)) }
{
    let mut entries = opened;
    let mut count = 1;
    let mut left = text;
    while let Some((line, after)) = cut_line(left) {
        if is_last(alloc, count, line)? {
            return whole(entries, count, after);
        }
        let Some(entry) = entry_in(alloc, first, count, line)? else {
            return Err(DocStop::Bad(count + 1));
        };
        entries.push(entry)?;
        count = one_more(count)?;
        left = after;
    }
    Err(DocStop::Bad(count + 1))
}

/// A count of lines, where they can be numbered behind one more.
fn one_more(count: u32) -> Result<u32, Memory>
    ensures next { IfOk result (λ n. n ≡ count + 1) }
    ensures small { IfOk result (λ n. n + 2 < 4_294_967_296) }
{
    if count < 4_294_967_293 {
        Ok(count + 1)
    } else {
        Err(Memory)
    }
}

/// The history of these entries, where nothing stands behind the last line.
fn whole(entries: Entries<Site>, count: u32, after: &str) -> Result<History<Site>, DocStop>
    requires { count + 2 < 4_294_967_296 }
    ensures { Gives (λ h. h.entries) result
        (result_map (λ es. entries ++ es) (entries_from finished (count + 1) after.now)) }
{
    if after.is_empty() {
        Ok(History { entries })
    } else {
        Err(DocStop::Bad(count + 2))
    }
}

/// The site that this line opens, and whether it does so in the first version.
fn opening_in(alloc: Global, line: &str) -> Result<Option<(bool, Site)>, Memory>
    ensures { IfOk result (λ o. o ≡ opening_in line.now) }
{
    match read_json(alloc, line)? {
        Some(json) => opening_said(alloc, line, &json),
        None => Ok(None),
    }
}

fn opening_said(alloc: Global, line: &str, json: &Json) -> Result<Option<(bool, Site)>, Memory>
    ensures { IfOk result (λ o. o ≡ opening_said line.now (json_view json.now)) }
{
    let Some(said) = json.get("site") else {
        return Ok(None);
    };
    match site_said(alloc, said)? {
        Some(site) => if_opening(alloc, line, says_first(json), site),
        None => Ok(None),
    }
}

/// The site, where this is the line that opens it.
fn if_opening(
    alloc: Global,
    line: &str,
    first: bool,
    site: Site,
) -> Result<Option<(bool, Site)>, Memory>
    ensures { IfOk result (λ o. o ≡ if_opening line.now first site) }
{
    if opening_line(alloc, first, &site)?.is(line) {
        Ok(Some((first, site)))
    } else {
        Ok(None)
    }
}

#[tactic(auto, unfolding(crate::specs::JournalLines::says_first))]
fn says_first(json: &Json) -> bool
    ensures { result ≡ says_first (json_view json.now) }
{
    match json.get("journal").and_then(Json::as_u64) {
        Some(version) => version == 1,
        None => false,
    }
}

/// Whether this is the last line behind so many entries.
fn is_last(alloc: Global, count: u32, line: &str) -> Result<bool, Memory>
    ensures { IfOk result (λ b. b ≡ is_last count line.now) }
{
    Ok(count_line(alloc, count as usize)?.is(line))
}

/// Entry `number`, whose line this is.
fn entry_in(
    alloc: Global,
    first: bool,
    number: u32,
    line: &str,
) -> Result<Option<Entry<Site>>, Memory>
    ensures { IfOk result (λ o. option_map event_of o ≡ entry_in first number line.now) }
{
    match read_json(alloc, line)? {
        Some(json) => entry_written(alloc, first, number, line, &json),
        None => Ok(None),
    }
}

/// The entry that the JSON says, where this is its line.
fn entry_written(
    alloc: Global,
    first: bool,
    number: u32,
    line: &str,
    json: &Json,
) -> Result<Option<Entry<Site>>, Memory>
    ensures { IfOk result (λ o. option_map event_of o ≡ entry_written first number line.now (json_view json.now)) }
{
    match entry_said(alloc, number, line, json)? {
        Some(entry) => if_written(alloc, first, number, line, entry),
        None => Ok(None),
    }
}

fn if_written(
    alloc: Global,
    first: bool,
    number: u32,
    line: &str,
    entry: Entry<Site>,
) -> Result<Option<Entry<Site>>, Memory>
    ensures { IfOk result (λ o. option_map event_of o ≡ if_written first number line.now (event_of entry)) }
{
    if is_written(alloc, first, number, line, &entry)? {
        Ok(Some(entry))
    } else {
        Ok(None)
    }
}

/// Whether this is the line of entry `number` in that version.
fn is_written(
    alloc: Global,
    first: bool,
    number: u32,
    line: &str,
    entry: &Entry<Site>,
) -> Result<bool, Memory>
    ensures { IfOk result (λ b. b ≡ is_written first number line.now (event_of entry.now)) }
{
    if !may_stand(first, entry) {
        return Ok(false);
    }
    Ok(entry_line(alloc, number as usize, entry)?.is(line))
}

/// Whether the entry may stand behind others in that version.
fn may_stand(first: bool, entry: &Entry<Site>) -> bool
    ensures { result ≡ may_stand first (event_of entry.now) }
{
    match entry {
        Entry::Open { .. } => false,
        Entry::Publish { .. } | Entry::Deactivate { .. } | Entry::Deploy { .. } => true,
        Entry::Report { .. } => !first,
    }
}
