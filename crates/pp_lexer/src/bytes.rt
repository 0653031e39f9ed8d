//! White space, comments and lines.

ghost use Rattle.std.specs.Prelude.{◌≡◌, ◌≢◌, ◌+◌, ◌-◌, ◌^◌, ◌<◌, ◌≤◌, length, drop, slice_index, IfSome, IsTrue, true};
ghost use Rattle.std.specs.List.{prefix_len};
ghost use Rattle.pp_lexer.specs.Bytes as spec;

use memchr::memchr;

/// The byte at a place, or 0 behind the end.
pub fn byte(bytes: &[u8], at: usize) -> u8
    ensures value { result ≡ slice_index bytes.now at }
    ensures within { result ≢ 0 → at < length bytes.now }
{
    if at < bytes.len() { bytes[at] } else { 0 }
}

pub fn is_white(b: u8) -> bool
    ensures { result ≡ spec.is_white b }
{
    b == b' ' || b == b'\t' || b == b'\r' || b == b'\n'
}

pub fn is_word(b: u8) -> bool
    ensures { result ≡ spec.is_word b }
{
    // Most bytes of words are such letters.
    b.is_ascii_lowercase() || b == b'_' || b.is_ascii_alphanumeric()
}

/// The length of the white space at the front.
pub fn white_len(bytes: &[u8]) -> usize
    requires { spec.is_white (slice_index bytes.now 0) ≡ true }
    ensures value { result ≡ prefix_len spec.is_white bytes.now }
    ensures within { (0 < result) × (result ≤ length bytes.now) }
    ensures ascii { slice_index bytes.now (result - 1) < 128 }
{
    for at in 1..bytes.len() {
        if !is_white(bytes[at]) {
            return at;
        }
    }
    bytes.len()
}

/// The place behind the line feed that ends the line.
pub fn line_end(bytes: &[u8], from: usize) -> usize
    requires { from ≤ length bytes.now }
    ensures value { result ≡ spec.line_end from (drop from bytes.now) }
    ensures within { (from ≤ result) × (result ≤ length bytes.now) }
    ensures ends { result < length bytes.now → slice_index bytes.now (result - 1) < 128 }
{
    match memchr(b'\n', &bytes[from..]) {
        None => bytes.len(),
        Some(further) => from + further + 1,
    }
}

/// The place behind the `*/` that ends a comment.
fn comment_end(bytes: &[u8], from: usize) -> Option<usize>
    requires { from ≤ length bytes.now }
    ensures value { result ≡ spec.comment_end from (drop from bytes.now) }
    ensures within { IfSome result (λ end. (from < end) × (end ≤ length bytes.now)) }
    ensures ends { IfSome result (λ end. slice_index bytes.now (end - 1) < 128) }
{
    for at in from..bytes.len() {
        if bytes[at] == b'*' && byte(bytes, at + 1) == b'/' {
            return Some(at + 2);
        }
    }
    None
}

pub fn opens_comment(bytes: &[u8]) -> bool
    ensures value { result ≡ spec.opens_comment bytes.now }
    ensures within { IsTrue result → 2 ≤ length bytes.now }
{
    byte(bytes, 0) == b'/' && byte(bytes, 1) == b'*'
}

/// The length of the comment at the front, or 0 where nothing ends it.
pub fn comment_len(bytes: &[u8]) -> usize
    requires { 2 ≤ length bytes.now }
    ensures value { result ≡ spec.some_or_zero (spec.comment_end 2 (drop 2 bytes.now)) }
    ensures within { result ≤ length bytes.now }
    ensures ends { 0 < result → slice_index bytes.now (result - 1) < 128 }
{
    match comment_end(bytes, 2) {
        None => 0,
        Some(end) => end,
    }
}

/// The length of the white space or the comment at the front, or 0 where there is none.
#[tactic(auto, unfolding(crate::specs::Bytes::blank_len))]
pub fn blank_len(bytes: &[u8]) -> usize
    requires { 0 < length bytes.now }
    ensures value { result ≡ spec.blank_len bytes.now }
    ensures within { result ≤ length bytes.now }
    ensures ends { 0 < result → result < length bytes.now → slice_index bytes.now (result - 1) < 128 }
{
    if is_white(bytes[0]) {
        white_len(bytes)
    } else if bytes[0] == b'#' {
        line_end(bytes, 1)
    } else if opens_comment(bytes) {
        comment_len(bytes)
    } else {
        0
    }
}

/// Whether the next token is `{`.
#[tactic(auto, using(crate::proofs::ByteLemmas::meets_brace_goes, crate::proofs::ByteLemmas::meets_brace_stops))]
pub fn meets_brace(bytes: &[u8]) -> bool
    ensures { result ≡ spec.meets_brace 0 bytes.now }
{
    let mut rest = bytes;
    while !rest.is_empty() {
        let len = blank_len(rest);
        if len == 0 {
            return rest[0] == b'{';
        }
        rest = &rest[len..];
    }
    false
}

/// The line behind a text that begins on this line.
pub fn line_at(mut line: u32, bytes: &[u8]) -> u32
    requires { line + length bytes.now < 2 ^ 32 }
    ensures value { result ≡ spec.line_at line bytes.now }
    ensures within { result ≤ line + length bytes.now }
{
    for b in bytes {
        if *b == b'\n' {
            line += 1;
        }
    }
    line
}
