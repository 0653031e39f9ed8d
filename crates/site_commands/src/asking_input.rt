//! The history and the requests with which a command goes on, and why they were not had.
ghost use Rattle.std.specs.Prelude.{◌≡◌, ◌≤◌, ◌-◌, IfOk, IfErr, IsTrue, length, take};
ghost use Rattle.res_core.specs.AskedFacts.{give_facts};
ghost use Rattle.site_bundle.specs.Refusals.{Reads};
ghost use Rattle.site_bundle.specs.declared.limits.TheConstants.{MOST_REQUESTS};
ghost use Rattle.site_core.specs.declared.history.TheConstants.{MOST_ENTRIES};
ghost use Rattle.site_commands.specs.Inputs.{HasInput, HasStoppedBy, IsJournal, ReadsAsking};
ghost use Rattle.site_commands.specs.Inputs as read;
ghost use Rattle.site_commands.specs.JournalParts.{asked_in_line, journal_part, requests_part};

use crate::input::InputStop;
use crate::journal_input::parse_journal;
use crate::journal_parts::{behind_line, requests_part};
use pp_values::Text;
use res_core::Requests;
use site_bundle::{BundleStop, MOST_BUNDLE_BYTES, Site, read_request_list};
use site_core::History;
use site_io::{Source, read_all};
use std::alloc::Global;

/// A history, and what is asked behind it.
#[derive(Drop)]
pub struct Asking {
    pub history: History<Site>,
    pub requests: Requests,
}

/// Takes the history whose journal the source has, and the requests behind it.
pub fn take_asking<S: Source>(alloc: Global, source: &mut S) -> Result<Asking, InputStop>
    ensures all { IfOk result (λ said. (f : _) →
        HasInput read.resuming (read.asking said.history.entries said.requests) (S.stream source.old)
        (S.stream source.new) f f) }
    ensures stop { IfErr result (λ stop. (f : _) →
        HasStoppedBy stop read.resuming (S.stream source.old) (S.stream source.new) f f) }
    ensures few { IfOk result (λ said. length said.history.entries ≤ MOST_ENTRIES) }
    ensures facts { IfOk result (λ said. IsTrue (give_facts said.requests)) }
    ensures short { IfOk result (λ said. length said.requests ≤ MOST_REQUESTS) }
{
    match read_all(alloc, source, MOST_BUNDLE_BYTES) {
        Ok(bytes) => parse_asking(alloc, bytes.as_slice()),
        Err(stop) => Err(InputStop::Unread(stop)),
    }
}

fn parse_asking(alloc: Global, bytes: &[u8]) -> Result<Asking, InputStop>
    ensures read { ReadsAsking result bytes.now }
    ensures few { IfOk result (λ said. length said.history.entries ≤ MOST_ENTRIES) }
    ensures facts { IfOk result (λ said. IsTrue (give_facts said.requests)) }
    ensures short { IfOk result (λ said. length said.requests ≤ MOST_REQUESTS) }
{
    let behind = requests_part(bytes);
    match parse_journal(alloc, front_of(bytes, behind)) {
        Ok(history) => with_requests(alloc, history, behind),
        Err(stop) => Err(stop),
    }
}

/// All bytes but as many as stand behind.
fn front_of<'a>(bytes: &'a [u8], behind: &[u8]) -> &'a [u8]
    requires { length behind.now ≤ length bytes.now }
    ensures { result.now ≡ take (length bytes.now - length behind.now) bytes.now }
{
    &bytes[..bytes.len() - behind.len()]
}

/// The history with the requests that these bytes say.
fn with_requests(alloc: Global, history: History<Site>, bytes: &[u8]) -> Result<Asking, InputStop>
    requires few { length history.entries ≤ MOST_ENTRIES }
    ensures read { (all : _) → IsJournal history.entries (journal_part all) → bytes.now ≡ requests_part all →
        ReadsAsking result all }
    ensures few { IfOk result (λ said. length said.history.entries ≤ MOST_ENTRIES) }
    ensures facts { IfOk result (λ said. IsTrue (give_facts said.requests)) }
    ensures short { IfOk result (λ said. length said.requests ≤ MOST_REQUESTS) }
{
    match parse_requests(alloc, bytes) {
        Ok(requests) => Ok(Asking { history, requests }),
        Err(why) => Err(InputStop::Refused(why)),
    }
}

/// The requests of one line.
fn parse_requests(alloc: Global, bytes: &[u8]) -> Result<Requests, BundleStop>
    ensures requests { Reads result (asked_in_line bytes.now) }
    ensures facts { IfOk result (λ requests. IsTrue (give_facts requests)) }
    ensures short { IfOk result (λ requests. length requests ≤ MOST_REQUESTS) }
{
    match behind_line(bytes) {
        [] => read_request_list(alloc, bytes),
        [_, ..] => match Text::from_str(alloc, "requests") {
            Ok(path) => Err(BundleStop::BadShape(path)),
            Err(_) => Err(BundleStop::Memory),
        },
    }
}
