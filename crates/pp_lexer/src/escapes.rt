//! What texts say: their bytes, with escapes in place of what they stand for.

ghost use Rattle.std.specs.Prelude.{◌≡◌, ◌<◌, ◌≤◌, ◌-◌, length, take, drop, slice_index, nat_le, nat_lt, ◌&&◌, ◌==◌, IfOk, IfSome, None, if◌then◌else◌};
ghost use Rattle.std.specs.Char.{is_ascii_hexdigit};
ghost use Rattle.std.specs.List.{prefix_len};
ghost use Rattle.pp_lexer.specs.Escapes as spec;
ghost use Rattle.pp_lexer.specs.Escapes.{IsEscape, Splits};

use crate::bytes::byte;
use crate::numbers::digits_value;
use pp_values::{Memory, Text};
use std::alloc::Global;

/// The quotes round a text.
#[derive(Clone, Copy, Debug)]
pub enum Quotes {
    Single,
    Double,
}

/// What a backslash says, and how many of the bytes behind it it takes.
#[derive(Clone, Copy, Debug)]
pub struct Escape {
    pub says: Option<char>,
    pub taken: usize,
}

/// An escape of these bytes where they name a character, and else the backslash itself.
fn naming(taken: usize, named: Option<char>) -> Escape
    ensures { result ≡ spec.naming taken named }
{
    match named {
        None => Escape {
            says: Some('\\'),
            taken: 0,
        },
        Some(c) => Escape {
            says: Some(c),
            taken,
        },
    }
}

fn single_letter(b: u8) -> Option<char>
    ensures value { result ≡ spec.single_letter b }
    ensures ascii { IfSome result (λ _. b < 128) }
    ensures some { IfSome result (λ _. 0 < b) }
{
    match b {
        b'\\' | b'\'' => Some(b as char),
        _ => None,
    }
}

fn double_letter(b: u8) -> Option<char>
    ensures value { result ≡ spec.double_letter b }
    ensures ascii { IfSome result (λ _. b < 128) }
    ensures some { IfSome result (λ _. 0 < b) }
{
    match b {
        b'n' => Some('\n'),
        b'r' => Some('\r'),
        b't' => Some('\t'),
        b's' => Some(' '),
        b'$' | b'"' | b'\'' | b'\\' => Some(b as char),
        _ => None,
    }
}

/// The character that hexadecimal digits name.
fn character(digits: &[u8]) -> Option<char>
    ensures { result ≡ spec.character digits.now }
{
    let code = digits_value(16, digits)?;
    if code < 0x11_0000 {
        char::from_u32(code as u32)
    } else {
        None
    }
}

/// The number of hexadecimal digits at the front.
fn hex_len(bytes: &[u8]) -> usize
    ensures value { result ≡ prefix_len is_ascii_hexdigit bytes.now }
    ensures within { result ≤ length bytes.now }
{
    for at in 0..bytes.len() {
        if !bytes[at].is_ascii_hexdigit() {
            return at;
        }
    }
    bytes.len()
}

/// The character that stands behind `\u{`, whose digits have this length.
fn braced_character(behind: &[u8], len: usize) -> Option<char>
    requires { len ≤ length behind.now }
    ensures value { result ≡ (if nat_le len 6 && slice_index behind.now len == 125 then spec.character (take len behind.now) else None) }
    ensures closed { IfSome result (λ _. slice_index behind.now len ≡ 125) }
{
    if len <= 6 && byte(behind, len) == b'}' {
        character(&behind[..len])
    } else {
        None
    }
}

/// The character that stands behind `\u`.
fn four_digit_character(behind: &[u8]) -> Option<char>
    ensures value { result ≡ (if nat_lt (length behind.now) 4 then None else spec.character (take 4 behind.now)) }
    ensures within { IfSome result (λ _. 4 ≤ length behind.now) }
    ensures ascii { IfSome result (λ _. slice_index behind.now 3 < 128) }
{
    if behind.len() < 4 || behind[3] >= 128 {
        None
    } else {
        character(&behind[..4])
    }
}

/// `\u{..}`, by what stands behind its backslash.
#[tactic(auto, unfolding(crate::specs::Escapes::braced))]
fn braced(behind: &[u8]) -> Escape
    requires { 2 ≤ length behind.now }
    ensures value { result ≡ spec.braced (drop 2 behind.now) }
    ensures escape { IsEscape behind.now result }
{
    let digits = &behind[2..];
    let len = hex_len(digits);
    naming(len + 3, braced_character(digits, len))
}

/// `\u....`, by what stands behind its backslash.
#[tactic(auto, unfolding(crate::specs::Escapes::four_digits))]
fn four_digits(behind: &[u8]) -> Escape
    requires { 1 ≤ length behind.now }
    ensures value { result ≡ spec.four_digits (drop 1 behind.now) }
    ensures escape { IsEscape behind.now result }
{
    naming(5, four_digit_character(&behind[1..]))
}

/// What a backslash says in double quotes.
#[tactic(auto, unfolding(crate::specs::Escapes::double))]
fn double(behind: &[u8]) -> Escape
    ensures value { result ≡ spec.double behind.now }
    ensures escape { IsEscape behind.now result }
{
    match behind {
        [b'u', b'{', ..] => braced(behind),
        [b'u', ..] => four_digits(behind),
        [b'\n', ..] => Escape {
            says: None,
            taken: 1,
        },
        [b'\r', b'\n', ..] => Escape {
            says: None,
            taken: 2,
        },
        _ => naming(1, double_letter(byte(behind, 0))),
    }
}

/// What a backslash says, by what stands behind it.
fn read_escape(quotes: Quotes, behind: &[u8]) -> Escape
    ensures value { result ≡ spec.escape quotes behind.now }
    ensures escape { IsEscape behind.now result }
{
    match quotes {
        Quotes::Single => naming(1, single_letter(byte(behind, 0))),
        Quotes::Double => double(behind),
    }
}

/// What stands before the first backslash, what this one says, and what is left then.
fn split_at_escape(quotes: Quotes, text: &str) -> Option<(&str, Escape, &str)>
    ensures { Splits quotes text.entry.now result }
{
    let (plain, behind) = text.split_once('\\')?;
    let escape = read_escape(quotes, behind.as_bytes());
    Some((plain, escape, &behind[escape.taken..]))
}

/// What a text says that has escapes.
#[tactic(auto, unfolding(crate::specs::Escapes::said))]
fn unescaped(alloc: Global, quotes: Quotes, spelling: &str) -> Result<Text, Memory>
    ensures { IfOk result (λ t. t ≡ spec.said quotes 0 spelling.now) }
{
    let mut text = String::new(alloc);
    let mut rest = spelling;
    while let Some((plain, escape, left)) = split_at_escape(quotes, rest) {
        text.push_str(plain)?;
        if let Some(c) = escape.says {
            text.push(c)?;
        }
        rest = left;
    }
    text.push_str(rest)?;
    Ok(Text::new(text))
}

/// What a text says, from what stands between its quotes.
#[tactic(auto, using(crate::proofs::EscapeLemmas::says_itself))]
pub fn said(alloc: Global, quotes: Quotes, spelling: &str) -> Result<Text, Memory>
    ensures { IfOk result (λ t. t ≡ spec.said quotes 0 spelling.now) }
{
    if spelling.as_bytes().contains(&b'\\') {
        unescaped(alloc, quotes, spelling)
    } else {
        Text::from_str(alloc, spelling)
    }
}

/// Whether a text says nothing, as where it is made of line breaks behind backslashes.
#[tactic(auto, using(crate::proofs::EscapeLemmas::plain_says))]
pub fn says_nothing(alloc: Global, quotes: Quotes, spelling: &str) -> Result<bool, Memory>
    requires { 0 < length spelling.now }
    ensures { IfOk result (λ nothing. nothing ≡ (length (spec.said quotes 0 spelling.now) == 0)) }
{
    if spelling.as_bytes()[0] != b'\\' {
        return Ok(false);
    }
    Ok(said(alloc, quotes, spelling)?.as_str().is_empty())
}
