//! Text outside of tags.

ghost use Rattle.std.specs.Prelude.{◌≡◌, ◌-◌, ◌<◌, ◌≤◌, ◌||◌, IsTrue, length, slice_index};
ghost use Rattle.epp_text.specs.Fronts.{IsPart};
ghost use Rattle.epp_text.specs.Pieces as spec;

use crate::bytes::{drops_indent, is_blank, opens, writes_closer};
use crate::front::Front;
use crate::piece::PieceKind;

/// Whether a tag, `<%%` or `%%>` ends a run of text here.
fn ends_run(bytes: &[u8]) -> bool
    ensures value { result ≡ (spec.opens bytes.now || spec.writes_closer bytes.now) }
    ensures ascii { IsTrue result → slice_index bytes.now 0 < 128 }
{
    opens(bytes) || writes_closer(bytes)
}

/// The length of a run of text.
#[tactic(auto, using(crate::proofs::ByteSteps::run_goes, crate::proofs::ByteSteps::run_stops))]
fn run_len(bytes: &[u8]) -> usize
    requires { 0 < length bytes.now }
    ensures value { result ≡ spec.run_len bytes.now }
    ensures within { (0 < result) × (result ≤ length bytes.now) }
    ensures ascii { result < length bytes.now → slice_index bytes.now result < 128 }
{
    for at in 1..bytes.len() {
        if ends_run(&bytes[at..]) {
            return at;
        }
    }
    bytes.len()
}

/// The place behind the last byte that is no blank.
#[tactic(auto, using(crate::proofs::ByteSteps::kept_goes))]
fn kept_len(bytes: &[u8]) -> usize
    ensures value { result ≡ spec.kept_from 0 0 bytes.now }
    ensures within { result ≤ length bytes.now }
{
    let mut kept = 0;
    for at in 0..bytes.len() {
        if !is_blank(bytes[at]) {
            kept = at + 1;
        }
    }
    kept
}

/// Where a run ends whose indent is dropped.
fn indent_from(begins: bool, run: &[u8]) -> usize
    ensures value { result ≡ spec.indent_from begins run.now }
    ensures within { result ≤ length run.now }
    ensures feed { 0 < result → result < length run.now → slice_index run.now (result - 1) ≡ 10 }
{
    let kept = kept_len(run);
    if kept == 0 {
        return if begins { 0 } else { run.len() };
    }
    if run[kept - 1] == b'\n' {
        kept
    } else {
        run.len()
    }
}

/// Where the text of a run of this length ends.
#[tactic(auto, using(crate::proofs::Cuts::taken_byte))]
fn run_to(begins: bool, bytes: &[u8], len: usize) -> usize
    requires { len ≤ length bytes.now }
    ensures value { result ≡ spec.run_to begins bytes.now len }
    ensures within { result ≤ len }
    ensures feed { 0 < result → result < len → slice_index bytes.now (result - 1) ≡ 10 }
{
    if drops_indent(&bytes[len..]) {
        indent_from(begins, &bytes[..len])
    } else {
        len
    }
}

/// A run of text.
#[tactic(auto, unfolding(crate::specs::Pieces::run))]
pub fn run(begins: bool, text: &str) -> Front
    requires { 0 < length text.now }
    ensures value { result ≡ spec.run begins text.now }
    ensures part { IsPart text.now result }
{
    let bytes = text.as_bytes();
    let len = run_len(bytes);
    let to = run_to(begins, bytes, len);
    Front::new(Some(PieceKind::Text), 0, to, len, false)
}
