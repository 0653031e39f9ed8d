//! The history of the journal that a command works on, and why it was not had.
ghost use Rattle.std.specs.Prelude.{◌≡◌, ◌≤◌, IfOk, IfErr, decimal, length, take};
ghost use Rattle.std.specs.List.{count_by};
ghost use Rattle.std.specs.Str.{IsUtf8};
ghost use Rattle.site_core.specs.declared.history.TheConstants.{MOST_ENTRIES};
ghost use Rattle.site_commands.specs.Inputs.{HasInput, HasStoppedBy, ReadsJournal, TellsBreak, TellsLine, is_feed};
ghost use Rattle.site_commands.specs.Inputs.{line_behind};
ghost use Rattle.site_commands.specs.Inputs as read;

use crate::input::InputStop;
use journal_reading::read_journal;
use json_documents::DocStop;
use pp_values::{Memory, Text};
use site_bundle::{BundleStop, MOST_BUNDLE_BYTES, Site};
use site_core::{History, MOST_ENTRIES};
use site_io::{Source, read_all};
use std::alloc::Global;

/// Takes the history whose journal the source has.
pub fn take_journal<S: Source>(alloc: Global, source: &mut S) -> Result<History<Site>, InputStop>
    ensures all { IfOk result (λ said. (f : _) →
        HasInput read.journal (read.history said.entries) (S.stream source.old) (S.stream source.new) f f) }
    ensures stop { IfErr result (λ stop. (f : _) →
        HasStoppedBy stop read.journal (S.stream source.old) (S.stream source.new) f f) }
    ensures few { IfOk result (λ said. length said.entries ≤ MOST_ENTRIES) }
{
    match read_all(alloc, source, MOST_BUNDLE_BYTES) {
        Ok(bytes) => parse_journal(alloc, bytes.as_slice()),
        Err(stop) => Err(InputStop::Unread(stop)),
    }
}

/// The history whose journal the bytes are.
pub fn parse_journal(alloc: Global, bytes: &[u8]) -> Result<History<Site>, InputStop>
    ensures read { ReadsJournal result bytes.now }
    ensures few { IfOk result (λ said. length said.entries ≤ MOST_ENTRIES) }
{
    match str::from_utf8(bytes) {
        Ok(text) => parse_text(alloc, text),
        Err(error) => Err(bad_text(alloc, bytes, error.valid_up_to())),
    }
}

fn parse_text(alloc: Global, text: &str) -> Result<History<Site>, InputStop>
    ensures read { IsUtf8 text.now → ReadsJournal result text.now }
    ensures few { IfOk result (λ said. length said.entries ≤ MOST_ENTRIES) }
{
    match read_journal(alloc, text) {
        Ok(history) => {
            if history.entries.len() <= MOST_ENTRIES as usize {
                Ok(history)
            } else {
                Err(InputStop::TooManyEntries)
            }
        }
        Err(DocStop::Bad(line)) => Err(bad_line(alloc, line as usize)),
        Err(DocStop::Memory) => Err(InputStop::Refused(BundleStop::Memory)),
    }
}

/// So many of the bytes are text, and the next one is none.
fn bad_text(alloc: Global, bytes: &[u8], front: usize) -> InputStop
    requires within { front ≤ length bytes.now }
    requires text { IsUtf8 (take front bytes.now) }
    ensures { TellsBreak result (take front bytes.now) }
{
    match str::from_utf8(&bytes[..front]) {
        Ok(text) => broken_text(alloc, text),
        Err(_) => unreachable!(),
    }
}

/// Behind the text stands a byte that is none.
fn broken_text(alloc: Global, text: &str) -> InputStop
    ensures { TellsBreak result text.now }
{
    match count_feeds(text.as_bytes()).checked_add(1) {
        Some(line) => first_bad(alloc, text, line),
        // More lines than can be counted find no room.
        None => InputStop::Refused(BundleStop::Memory),
    }
}

/// The byte that is none stands in the line with this number.
fn first_bad(alloc: Global, text: &str, line: usize) -> InputStop
    requires { line ≡ line_behind text.now }
    ensures { TellsBreak result text.now }
{
    match read_journal(alloc, text) {
        Ok(history) => {
            drop(history);
            bad_line(alloc, line)
        }
        Err(DocStop::Bad(before)) => bad_line(alloc, (before as usize).min(line)),
        Err(DocStop::Memory) => InputStop::Refused(BundleStop::Memory),
    }
}

fn count_feeds(bytes: &[u8]) -> usize
    ensures { result ≡ count_by is_feed bytes.now }
{
    bytes.iter().filter(|byte| is_feed(byte)).count()
}

fn is_feed(byte: &u8) -> bool
    ensures { result ≡ is_feed byte.now }
{
    *byte == b'\n'
}

/// The line with this number is the first bad one.
fn bad_line(alloc: Global, line: usize) -> InputStop
    ensures { TellsLine result line }
{
    match number_text(alloc, line) {
        Ok(number) => InputStop::BadLine(number),
        Err(_) => InputStop::Refused(BundleStop::Memory),
    }
}

fn number_text(alloc: Global, number: usize) -> Result<Text, Memory>
    ensures { IfOk result (λ text. text ≡ decimal number) }
{
    Ok(Text::new(format!(in alloc; "{number}")?))
}
