//! Tags.

ghost use Rattle.std.specs.Prelude.{◌≡◌, ◌+◌, ◌-◌, ◌<◌, ◌≤◌, IfSome, None, Some, drop, false, length, slice_index, true};
ghost use Rattle.epp_text.specs.Fronts.{IsPart};
ghost use Rattle.epp_text.specs.Pieces as spec;

use crate::bytes::{blanks_len, break_len, byte, closes};
use crate::front::Front;
use crate::piece::PieceKind;

/// What a tag is, by the byte behind its `<%`.
fn tag_kind(b: u8) -> Option<PieceKind>
    ensures { result ≡ spec.tag_kind b }
{
    match b {
        b'=' => Some(PieceKind::Value),
        b'#' => None,
        _ => Some(PieceKind::Code),
    }
}

/// How many bytes begin a tag.
fn opener_len(bytes: &[u8]) -> usize
    requires { spec.opens bytes.now ≡ true }
    ensures value { result ≡ spec.opener_len (slice_index bytes.now 2) }
    ensures within { (2 ≤ result) × (result ≤ length bytes.now) }
    ensures ascii { slice_index bytes.now (result - 1) < 128 }
{
    let b = byte(bytes, 2);
    if b == b'=' || b == b'#' || b == b'-' {
        3
    } else {
        2
    }
}

/// The place of the first `%>` from a place on.
#[tactic(auto, using(crate::proofs::ByteSteps::close_goes, crate::proofs::ByteSteps::close_stops))]
fn close_from(bytes: &[u8], from: usize) -> Option<usize>
    requires { from ≤ length bytes.now }
    ensures value { result ≡ spec.close_from from (drop from bytes.now) }
    ensures within { IfSome result (λ end. (from ≤ end) × (end + 2 ≤ length bytes.now)) }
    ensures ends { IfSome result (λ end. (slice_index bytes.now end ≡ 37) × (slice_index bytes.now (end + 1) ≡ 62)) }
{
    for at in from..bytes.len() {
        if closes(&bytes[at..]) {
            return Some(at);
        }
    }
    None
}

/// How much is dropped behind a tag: blanks, and one line break.
fn dropped_len(bytes: &[u8]) -> usize
    ensures value { result ≡ spec.dropped_len bytes.now }
    ensures within { result ≤ length bytes.now }
    ensures ascii { 0 < result → slice_index bytes.now (result - 1) < 128 }
{
    let blanks = blanks_len(bytes);
    blanks + break_len(&bytes[blanks..])
}

/// Whether a line break is dropped behind a tag.
fn drops_break(bytes: &[u8]) -> bool
    ensures { result ≡ spec.drops_break bytes.now }
{
    let blanks = blanks_len(bytes);
    break_len(&bytes[blanks..]) > 0
}

/// A tag that nothing ends.
fn unclosed(text: &str, kind: Option<PieceKind>, from: usize) -> Front
    requires { 0 < length text.now }
    ensures value { result ≡ spec.tag_by kind from None text.now }
    ensures part { IsPart text.now result }
{
    Front::new(Some(PieceKind::Unclosed), 0, 0, text.len(), false)
}

/// A tag that ends with `%>` alone.
fn plain(text: &str, kind: Option<PieceKind>, from: usize, end: usize) -> Front
    requires begin { (0 < from) × (slice_index text.now (from - 1) < 128) }
    requires within { (from ≤ end) × (end + 2 ≤ length text.now) }
    requires ends { (slice_index text.now end ≡ 37) × (slice_index text.now (end + 1) ≡ 62) }
    ensures value { result ≡ spec.ended false kind from end text.now }
    ensures part { IsPart text.now result }
{
    Front::new(kind, from, end, end + 2, false)
}

/// A tag that ends with `-%>`.
fn dashed(text: &str, kind: Option<PieceKind>, from: usize, end: usize) -> Front
    requires begin { (0 < from) × (slice_index text.now (from - 1) < 128) }
    requires within { (from < end) × (end + 2 ≤ length text.now) }
    requires dash { slice_index text.now (end - 1) ≡ 45 }
    requires ends { (slice_index text.now end ≡ 37) × (slice_index text.now (end + 1) ≡ 62) }
    ensures value { result ≡ spec.ended true kind from end text.now }
    ensures part { IsPart text.now result }
{
    let bytes = text.as_bytes();
    let behind = &bytes[end + 2..];
    let len = end + 2 + dropped_len(behind);
    Front::new(kind, from, end - 1, len, drops_break(behind))
}

/// A tag that ends here.
fn closed(text: &str, kind: Option<PieceKind>, from: usize, end: usize) -> Front
    requires begin { (0 < from) × (slice_index text.now (from - 1) < 128) }
    requires within { (from ≤ end) × (end + 2 ≤ length text.now) }
    requires ends { (slice_index text.now end ≡ 37) × (slice_index text.now (end + 1) ≡ 62) }
    ensures value { result ≡ spec.tag_by kind from (Some end) text.now }
    ensures part { IsPart text.now result }
{
    let bytes = text.as_bytes();
    if from < end && bytes[end - 1] == b'-' {
        dashed(text, kind, from, end)
    } else {
        plain(text, kind, from, end)
    }
}

/// A tag.
#[tactic(auto, unfolding(crate::specs::Pieces::tag))]
pub fn tag(text: &str) -> Front
    requires { spec.opens text.now ≡ true }
    ensures value { result ≡ spec.tag text.now }
    ensures part { IsPart text.now result }
{
    let bytes = text.as_bytes();
    let kind = tag_kind(byte(bytes, 2));
    let from = opener_len(bytes);
    match close_from(bytes, from) {
        None => unclosed(text, kind, from),
        Some(end) => closed(text, kind, from, end),
    }
}
