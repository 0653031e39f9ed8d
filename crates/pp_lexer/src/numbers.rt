//! Numbers.

ghost use Rattle.std.specs.Prelude.{◌≡◌, ◌-◌, ◌^◌, ◌<◌, ◌≤◌, length, drop, take, slice_index, IfSome, true, if◌then◌else◌};
ghost use Rattle.std.specs.Char.{is_ascii_digit};
ghost use Rattle.std.specs.Char as chars;
ghost use Rattle.std.specs.List.{prefix_len};
ghost use Rattle.pp_lexer.specs.Bytes as words;
ghost use Rattle.pp_lexer.specs.Fronts.{IsPiece};
ghost use Rattle.pp_lexer.specs.Digits as spec;
ghost use Rattle.pp_lexer.specs.Numbers as numbers;

use crate::bytes::{byte, is_word};
use crate::front::{Found, Front, bad};

/// The greatest number.
const GREATEST: u64 = 0x7fff_ffff_ffff_ffff;

/// What a digit stands for, where letters go on from 10, and 36 for a byte that is neither.
fn digit_value(b: u8) -> u64
    ensures { result ≡ chars.digit_value b }
{
    let value = match b {
        b'0'..=b'9' => b - b'0',
        b'A'..=b'Z' => b - b'7',
        b'a'..=b'z' => b - b'W',
        _ => 36,
    };
    value as u64
}

/// A number with one more digit, if it is one.
fn with_digit(base: u64, number: u64, b: u8) -> Option<u64>
    ensures { result ≡ spec.with_digit base number b }
{
    let digit = digit_value(b);
    if digit < base {
        let more = number.checked_mul(base)?.checked_add(digit)?;
        if more <= GREATEST {
            return Some(more);
        }
    }
    None
}

/// What one or more digits say.
#[tactic(auto, using(crate::proofs::NumberLemmas::value_goes, crate::proofs::NumberLemmas::value_stops))]
pub fn digits_value(base: u64, digits: &[u8]) -> Option<u64>
    ensures value { result ≡ spec.digits_value base digits.now }
    ensures fits { IfSome result (λ n. n < 2 ^ 63) }
{
    if digits.is_empty() {
        return None;
    }
    let mut number = 0;
    for b in digits {
        number = with_digit(base, number, *b)?;
    }
    Some(number)
}

/// The number that is spelled so.
#[tactic(auto, unfolding(crate::specs::Digits::number_value))]
fn number_value(spelling: &[u8]) -> Option<u64>
    ensures value { result ≡ spec.number_value spelling.now }
    ensures fits { IfSome result (λ n. n < 2 ^ 63) }
{
    match spelling {
        [b'0', b'x', digits @ ..] => digits_value(16, digits),
        [b'0', _, ..] => digits_value(8, &spelling[1..]),
        _ => digits_value(10, spelling),
    }
}

/// The number that is spelled so, or 0 where none is.
pub fn number_said(spelling: &[u8]) -> i64
    ensures { result ≡ spec.number_said spelling.now }
{
    match number_value(spelling) {
        None => 0,
        Some(value) => value as i64,
    }
}

fn is_fraction(behind: &[u8]) -> bool
    ensures { result ≡ spec.is_fraction behind.now }
{
    byte(behind, 0) == b'.' && byte(behind, 1).is_ascii_digit()
}

/// The number of letters, digits and `_` at the front.
fn spelling_len(bytes: &[u8]) -> usize
    requires { is_ascii_digit (slice_index bytes.now 0) ≡ true }
    ensures value { result ≡ prefix_len words.is_word bytes.now }
    ensures within { (0 < result) × (result ≤ length bytes.now) }
    ensures ascii { slice_index bytes.now (result - 1) < 128 }
{
    for at in 1..bytes.len() {
        if !is_word(bytes[at]) {
            return at;
        }
    }
    bytes.len()
}

fn found_value(bytes: &[u8], len: usize) -> Option<u64>
    requires { len ≤ length bytes.now }
    ensures value { result ≡ (if spec.is_fraction (drop len bytes.now) then None else spec.number_value (take len bytes.now)) }
    ensures fits { IfSome result (λ n. n < 2 ^ 63) }
{
    if is_fraction(&bytes[len..]) {
        None
    } else {
        number_value(&bytes[..len])
    }
}

/// A number.
#[tactic(auto, unfolding(crate::specs::Numbers::number), using(crate::proofs::NumberLemmas::number_piece))]
pub fn number(bytes: &[u8]) -> Front
    requires { is_ascii_digit (slice_index bytes.now 0) ≡ true }
    ensures value { result ≡ numbers.number bytes.now }
    ensures piece { IsPiece bytes.now result }
{
    let len = spelling_len(bytes);
    match found_value(bytes, len) {
        None => bad(bytes),
        Some(value) => Front::new(Found::Number(value as i64), len),
    }
}
