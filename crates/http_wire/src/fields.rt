//! What the fields of a head say.
ghost use Rattle.std.specs.Prelude.{◌≡◌, ◌+◌, ◌≤◌, ◌∷◌, [], length, map, reverse, option_map, IfOk, MatchOption};
ghost use Rattle.std.specs.Str.{str_eq_ignore_ascii_case};
ghost use Rattle.std.specs.List.{position_or_len};
ghost use Rattle.httparse.specs.Borrowed.{header_parts};
ghost use Rattle.httparse.specs.Grammar.{trim_ows, skip_ows};
ghost use Rattle.http_wire.specs.Fields as spec;

use httparse::{Header, is_space_or_tab};
use pp_values::{Memory, Text};
use std::alloc::Global;

/// A number with one more digit.
fn with_digit(number: u32, byte: u8) -> Option<u32>
    ensures { result ≡ spec.with_digit number byte }
{
    if byte.is_ascii_digit() {
        number.checked_mul(10)?.checked_add((byte - b'0') as u32)
    } else {
        None
    }
}

/// The number that is written so.
pub fn number(digits: &[u8]) -> Option<u32>
    ensures { result ≡ spec.number digits.now }
{
    if digits.is_empty() {
        return None;
    }
    let mut number = 0;
    let mut left = digits;
    while let [byte, after @ ..] = left {
        number = with_digit(number, *byte)?;
        left = after;
    }
    Some(number)
}

/// Whether a field has this name.
fn is_named(field: &Header<'_>, name: &str) -> bool
    ensures { result ≡ str_eq_ignore_ascii_case field.now.name.now name.now }
{
    field.name.eq_ignore_ascii_case(name)
}

/// The value of the first field of this name, and the fields behind it.
fn next_value<'h, 'b>(fields: &'h [Header<'b>], name: &str) -> Option<(&'b [u8], &'h [Header<'b>])>
    ensures { MatchOption result (spec.values name.now (map header_parts fields.now) ≡ [])
        (λ found. spec.values name.now (map header_parts fields.now)
        ≡ found.0.now ∷ spec.values name.now (map header_parts found.1.now)) }
{
    let mut left = fields;
    while let [field, after @ ..] = left {
        if is_named(field, name) {
            return Some((field.value, after));
        }
        left = after;
    }
    None
}

/// How many bytes the body has; none where the fields are faulty.
pub(crate) fn body_length(fields: &[Header<'_>]) -> Option<u32>
    ensures { result ≡ spec.body_length (map header_parts fields.now) }
{
    if next_value(fields, "transfer-encoding").is_some() {
        return None;
    }
    match next_value(fields, "content-length") {
        None => Some(0),
        Some((digits, after)) => match next_value(after, "content-length") {
            None => number(digits),
            Some(_another) => None,
        },
    }
}

/// The bytes from the first that is no white space.
fn trimmed_front(bytes: &[u8]) -> &[u8]
    ensures { result.now ≡ skip_ows bytes.now }
{
    let mut left = bytes;
    while let [byte, after @ ..] = left {
        if !is_space_or_tab(*byte) {
            return left;
        }
        left = after;
    }
    left
}

/// The bytes up to the last that is no white space.
fn trimmed_back(bytes: &[u8]) -> &[u8]
    ensures { result.now ≡ reverse (skip_ows (reverse bytes.now)) }
{
    let mut left = bytes;
    while let [front @ .., byte] = left {
        if !is_space_or_tab(*byte) {
            return left;
        }
        left = front;
    }
    left
}

/// Whether a member of a list is `close`.
#[tactic(auto, unfolding(httparse::specs::Grammar::trim_ows))]
fn is_close(member: &[u8]) -> bool
    ensures { result ≡ spec.is_close member.now }
{
    trimmed_back(trimmed_front(member)).eq_ignore_ascii_case(b"close")
}

/// The place behind the first comma.
fn behind_comma(list: &[u8]) -> Option<usize>
    ensures { MatchOption result (length list.now ≤ position_or_len spec.is_comma list.now)
        (λ next. (next ≡ position_or_len spec.is_comma list.now + 1) × (next ≤ length list.now)) }
{
    let mut count = 0;
    let mut left = list;
    while let [byte, after @ ..] = left {
        count += 1;
        if *byte == b',' {
            return Some(count);
        }
        left = after;
    }
    None
}

/// Whether `close` is among the members of a list.
#[tactic(auto, using(crate::proofs::Members::closes_at_once, crate::proofs::Members::goes_on, crate::proofs::Members::at_last))]
fn has_close(members: &[u8]) -> bool
    ensures { result ≡ spec.has_close members.now }
{
    let mut left = members;
    while let Some(next) = behind_comma(left) {
        if is_close(&left[..next - 1]) {
            return true;
        }
        left = &left[next..];
    }
    is_close(left)
}

/// Whether the connection closes after the answer.
pub(crate) fn closes(minor: u8, fields: &[Header<'_>]) -> bool
    ensures { result ≡ spec.closes minor (map header_parts fields.now) }
{
    minor == 0 || asks_to_close(fields)
}

fn asks_to_close(fields: &[Header<'_>]) -> bool
    ensures { result ≡ spec.asks_to_close (map header_parts fields.now) }
{
    let mut left = fields;
    while let [field, after @ ..] = left {
        if is_named(field, "connection") && has_close(field.value) {
            return true;
        }
        left = after;
    }
    false
}

/// How many entries the sender has seen, as it says it.
pub(crate) fn seen(alloc: Global, fields: &[Header<'_>]) -> Result<Option<Text>, Memory>
    ensures { IfOk result (λ seen. seen ≡ spec.seen (map header_parts fields.now)) }
{
    match next_value(fields, "site-seen") {
        None => Ok(None),
        Some((value, _after)) => Ok(Some(as_ascii(alloc, value)?)),
    }
}

/// The bytes as a text, with `?` for each past ASCII.
fn as_ascii(alloc: Global, bytes: &[u8]) -> Result<Text, Memory>
    ensures { IfOk result (λ text. text ≡ map spec.as_ascii bytes.now) }
{
    let mut text = String::new(alloc);
    let mut left = bytes;
    while let [byte, after @ ..] = left {
        let ascii = if byte.is_ascii() { *byte } else { b'?' };
        text.push(ascii as char)?;
        left = after;
    }
    Ok(Text::new(text))
}
