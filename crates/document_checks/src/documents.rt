//! What is read of a document, and what is written for it.
use agent_docs::{DocStop, read_machine, read_report, write_machine, write_report};
use catalog_reading::read_catalog;
use journal_reading::read_journal;
use pp_values::{Memory, Text};
use site_docs::{write_catalog, write_journal};
use std::alloc::Global;

/// The line that tells how a document of this kind is read, and the text that is written for it.
pub(crate) fn answer(alloc: Global, kind: &str, text: &str) -> Result<String, Memory> {
    match written_again(alloc, kind, text) {
        Ok(again) => {
            let text = again.as_str();
            let size = text.len();
            Ok(format!(in alloc; "ok {size}\n{text}")?)
        }
        Err(DocStop::Bad(line)) => Ok(format!(in alloc; "bad {line}\n")?),
        Err(DocStop::Memory) => Err(Memory),
    }
}

fn written_again(alloc: Global, kind: &str, text: &str) -> Result<Text, DocStop> {
    match kind {
        "catalog" => Ok(write_catalog(alloc, &read_catalog(alloc, text)?)?),
        "report" => Ok(write_report(alloc, &read_report(alloc, text)?)?),
        "machine" => Ok(write_machine(alloc, &read_machine(alloc, text)?)?),
        "journal" => Ok(write_journal(alloc, &read_journal(alloc, text)?)?),
        _ => Err(DocStop::Bad(0)),
    }
}
