//! Single lines of a journal, without their line feeds.
ghost use Rattle.std.specs.Prelude.{◌≡◌, IfOk};
ghost use Rattle.serde_json.specs.Data.{null};
ghost use Rattle.serde_json.specs.View.{view as json_view};
ghost use Rattle.serde_json.specs.Written.{compact_text};
ghost use Rattle.site_core.specs.EntryViews.{event_of};
ghost use Rattle.site_docs.specs.JournalText.{entry_data, filing_object as object_of_filing, count_object as object_of_count};

use crate::entry_forms::{Numbers, count_form, entry_form, filing_object};
use json_documents::json_text;
use pp_values::{Memory, Text};
use serde_json::Value as Json;
use site_bundle::Site;
use site_core::Entry;
use std::alloc::Global;

/// The line of entry `number`.
#[tactic(auto, using(crate::proofs::Floats::entry_no_float))]
pub fn entry_line(alloc: Global, number: usize, entry: &Entry<Site>) -> Result<Text, Memory>
    ensures { IfOk result (λ t. t ≡ compact_text (entry_data number (event_of entry.now))) }
{
    let form = entry_form(alloc, number, entry)?;
    json_text(alloc, &form)
}

/// The last line behind so many entries.
#[tactic(auto, using(crate::proofs::Floats::count_no_float))]
pub fn count_line(alloc: Global, count: usize) -> Result<Text, Memory>
    ensures { IfOk result (λ t. t ≡ compact_text (object_of_count count)) }
{
    let form = count_form(alloc, count)?;
    json_text(alloc, &form)
}

/// The line of an entry by which a report is filed, with `null` in the place of the report.
pub fn unfiled_line(
    alloc: Global,
    author: u32,
    call: u32,
    entry: usize,
    node: &str,
) -> Result<Text, Memory>
    ensures { IfOk result (λ t. t ≡ compact_text (object_of_filing author call entry node.now null)) }
{
    let numbers = Numbers::new(author, call, entry);
    let form = filing_object(alloc, numbers, node, no_report())?;
    json_text(alloc, &form)
}

fn no_report() -> Json
    ensures { json_view result ≡ null }
{
    Json::Null
}
