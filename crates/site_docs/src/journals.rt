//! Histories as text.
ghost use Rattle.std.specs.Prelude.{◌≡◌, ◌++◌, false, IfOk, OnOk, string_bytes};
ghost use Rattle.serde_json.specs.View.{view as json_view};
ghost use Rattle.serde_json.specs.Written.{has_float};
ghost use Rattle.site_core.specs.EntryViews.{events_of};
ghost use Rattle.json_documents.specs.Tokens.{line};
ghost use Rattle.site_docs.specs.JournalText.{entry_lines, journal_text};

use crate::entry_forms::{count_form, entry_form};
use pp_values::{Memory, Text};
use serde_json::Value as Json;
use site_bundle::Site;
use site_core::{Entry, History};
use std::alloc::Global;

/// The history as text: a line of compact JSON for each entry, and a last line with their number.
#[tactic(auto, using(crate::proofs::Floats::count_no_float))]
pub fn write_journal(alloc: Global, history: &History<Site>) -> Result<Text, Memory>
    ensures { IfOk result (λ t. t ≡ journal_text history.now.entries) }
{
    let mut out = String::new(alloc);
    write_entries(alloc, &mut out, history.entries.as_slice())?;
    let count = count_form(alloc, history.entries.len())?;
    write_line(alloc, &mut out, &count)?;
    Ok(Text::new(out))
}

#[tactic(auto, using(crate::proofs::Floats::entry_no_float), unfolding(crate::specs::JournalText::entry_lines))]
fn write_entries(alloc: Global, out: &mut String, entries: &[Entry<Site>]) -> Result<(), Memory>
    ensures { OnOk result (string_bytes out.new ≡ string_bytes out.old ++ entry_lines 0 (events_of entries.now)) }
{
    for (number, entry) in entries.iter().enumerate() {
        let form = entry_form(alloc, number, entry)?;
        write_line(alloc, out, &form)?;
    }
    Ok(())
}

fn write_line(alloc: Global, out: &mut String, form: &Json) -> Result<(), Memory>
    requires { has_float (json_view form.now) ≡ false }
    ensures { OnOk result (string_bytes out.new ≡ string_bytes out.old ++ line (json_view form.now)) }
{
    let text = form.to_string(alloc)?;
    out.push_str(text.as_str())?;
    out.push_str("\n")?;
    Ok(())
}
