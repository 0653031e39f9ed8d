//! Texts in quotes: where they and their parts end.

ghost use Rattle.std.specs.Prelude.{◌≡◌, ◌-◌, ◌<◌, ◌≤◌, length, drop, slice_index, IfSome, IsTrue, Some, true, false};
ghost use Rattle.pp_lexer.specs.Fronts.{IsPart, IsPiece};
ghost use Rattle.pp_lexer.specs.Fronts as fronts;
ghost use Rattle.pp_lexer.specs.Texts as spec;

use crate::bytes::byte;
use crate::front::{Found, Front};
use crate::kind::Kind;
use crate::words::{WordSort, begins_word, word_len};
use memchr::memchr2;

/// The place behind the quote that closes a text in single quotes.
fn quoted_end(bytes: &[u8], from: usize) -> Option<usize>
    requires { from ≤ length bytes.now }
    ensures value { result ≡ spec.quoted_end false from (drop from bytes.now) }
    ensures within { IfSome result (λ end. (from < end) × (end ≤ length bytes.now)) }
    ensures ends { IfSome result (λ end. slice_index bytes.now (end - 1) ≡ 39) }
{
    let mut is_taken = false;
    for at in from..bytes.len() {
        if !is_taken && bytes[at] == b'\'' {
            return Some(at + 1);
        }
        is_taken = !is_taken && bytes[at] == b'\\';
    }
    None
}

/// The same of the text at the front, where no backslash stands in it.
#[tactic(auto, using(crate::proofs::TextLemmas::quoted_plain))]
fn plain_end(bytes: &[u8]) -> Option<usize>
    requires { 0 < length bytes.now }
    ensures value { IfSome result (λ end. spec.quoted_end false 1 (drop 1 bytes.now) ≡ Some end) }
    ensures within { IfSome result (λ end. (1 < end) × (end ≤ length bytes.now)) }
    ensures ends { IfSome result (λ end. slice_index bytes.now (end - 1) ≡ 39) }
{
    let at = memchr2(b'\'', b'\\', &bytes[1..])? + 1;
    if bytes[at] == b'\'' {
        Some(at + 1)
    } else {
        None
    }
}

/// The place behind the quote that closes the text in single quotes at the front.
fn closing_end(bytes: &[u8]) -> Option<usize>
    requires { 0 < length bytes.now }
    ensures value { result ≡ spec.quoted_end false 1 (drop 1 bytes.now) }
    ensures within { IfSome result (λ end. (1 < end) × (end ≤ length bytes.now)) }
    ensures ends { IfSome result (λ end. slice_index bytes.now (end - 1) ≡ 39) }
{
    match plain_end(bytes) {
        None => quoted_end(bytes, 1),
        Some(end) => Some(end),
    }
}

/// A text in single quotes.
#[tactic(auto, unfolding(crate::specs::Texts::quoted))]
pub fn quoted(bytes: &[u8]) -> Front
    requires within { 0 < length bytes.now }
    requires opening { slice_index bytes.now 0 ≡ 39 }
    ensures value { result ≡ spec.quoted bytes.now }
    ensures piece { IsPiece bytes.now result }
{
    match closing_end(bytes) {
        None => Front::mark(Kind::TextBegin, bytes.len()),
        Some(end) => Front::new(Found::Quoted, end),
    }
}

fn opens_interpolation(bytes: &[u8]) -> bool
    ensures value { result ≡ spec.opens_interpolation bytes.now }
    ensures within { IsTrue result → 2 ≤ length bytes.now }
{
    byte(bytes, 0) == b'$' && byte(bytes, 1) == b'{'
}

fn opens_variable(bytes: &[u8]) -> bool
    ensures value { result ≡ spec.opens_variable bytes.now }
{
    match bytes {
        [b'$', behind @ ..] => begins_word(WordSort::Variable, behind),
        _ => false,
    }
}

fn ends_run(bytes: &[u8]) -> bool
    ensures value { result ≡ spec.ends_run bytes.now }
    ensures ascii { IsTrue result → slice_index bytes.now 0 < 128 }
{
    byte(bytes, 0) == b'"' || opens_interpolation(bytes) || opens_variable(bytes)
}

/// The length of a run of a text in double quotes.
fn run_len(bytes: &[u8]) -> usize
    requires { 0 < length bytes.now }
    ensures value { result ≡ spec.run_len bytes.now }
    ensures within { (0 < result) × (result ≤ length bytes.now) }
    ensures ascii { result < length bytes.now → slice_index bytes.now result < 128 }
{
    let mut is_taken = bytes[0] == b'\\';
    for at in 1..bytes.len() {
        if !is_taken && ends_run(&bytes[at..]) {
            return at;
        }
        is_taken = !is_taken && bytes[at] == b'\\';
    }
    bytes.len()
}

/// A variable in a text.
fn variable_in_text(bytes: &[u8]) -> Front
    requires { spec.opens_variable bytes.now ≡ true }
    ensures value { result ≡ spec.variable_in_text bytes.now }
    ensures piece { IsPiece bytes.now result }
{
    let len = word_len(WordSort::Variable, &bytes[1..]);
    Front::new(Found::Dollar(Kind::VariableInText), len + 1)
}

/// The quote that ends a text.
fn closing_quote(bytes: &[u8]) -> Front
    requires { slice_index bytes.now 0 ≡ 34 }
    ensures value { result ≡ fronts.mark Kind.TextEnd 1 }
    ensures piece { IsPiece bytes.now result }
{
    Front::mark(Kind::TextEnd, 1)
}

/// `${`
fn interpolation(bytes: &[u8]) -> Front
    requires { spec.opens_interpolation bytes.now ≡ true }
    ensures value { result ≡ fronts.mark Kind.InterpolationBegin 2 }
    ensures piece { IsPiece bytes.now result }
{
    Front::mark(Kind::InterpolationBegin, 2)
}

/// A run of a text.
#[tactic(auto, using(crate::proofs::PartLemmas::run_is_part))]
fn run(bytes: &[u8]) -> Front
    requires { 0 < length bytes.now }
    ensures value { result ≡ fronts.front Found.Run (spec.run_len bytes.now) }
    ensures part { IsPart bytes.now result }
{
    let len = run_len(bytes);
    Front::new(Found::Run, len)
}

/// What stands at a place in a text in double quotes.
#[tactic(auto, unfolding(crate::specs::Texts::in_text), using(crate::proofs::PartLemmas::piece_is_part))]
pub fn in_text(text: &str) -> Front
    requires { 0 < length text.now }
    ensures value { result ≡ spec.in_text text.now }
    ensures part { IsPart text.now result }
{
    let bytes = text.as_bytes();
    if byte(bytes, 0) == b'"' {
        closing_quote(bytes)
    } else if opens_interpolation(bytes) {
        interpolation(bytes)
    } else if opens_variable(bytes) {
        variable_in_text(bytes)
    } else {
        run(bytes)
    }
}
