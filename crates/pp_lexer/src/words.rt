//! Names, types and variables.

ghost use Rattle.std.specs.Prelude.{◌≡◌, ◌+◌, ◌-◌, ◌<◌, ◌≤◌, length, take, drop, map, slice_index, true, false, IfNone, IfSome, IsTrue};
ghost use Rattle.std.specs.Str.{bytes_eq};
ghost use Rattle.pp_lexer.specs.Fronts.{IsPiece};
ghost use Rattle.pp_lexer.specs.Words as spec;

use crate::bytes::{byte, is_word};
use crate::front::{Found, Front, bad};
use crate::kind::Kind;

/// What a word is, by how each of its segments begins and whether `-` may stand in it.
#[derive(Clone, Copy, Debug)]
pub enum WordSort {
    Name,
    Type,
    Variable,
}

/// The keywords and the names of the statement functions, the shorter first. Any other name is just a name.
pub const WORDS: [(&[u8], Kind); 27] = [
    (b"if", Kind::If),
    (b"in", Kind::In),
    (b"or", Kind::Or),
    (b"and", Kind::And),
    (b"err", Kind::StatementFunction),
    (b"case", Kind::Case),
    (b"else", Kind::Else),
    (b"node", Kind::Node),
    (b"true", Kind::True),
    (b"info", Kind::StatementFunction),
    (b"fail", Kind::StatementFunction),
    (b"class", Kind::Class),
    (b"elsif", Kind::Elsif),
    (b"false", Kind::False),
    (b"undef", Kind::Undef),
    (b"debug", Kind::StatementFunction),
    (b"define", Kind::Define),
    (b"unless", Kind::Unless),
    (b"notice", Kind::StatementFunction),
    (b"default", Kind::Default),
    (b"include", Kind::StatementFunction),
    (b"contain", Kind::StatementFunction),
    (b"require", Kind::StatementFunction),
    (b"realize", Kind::StatementFunction),
    (b"warning", Kind::StatementFunction),
    (b"function", Kind::Function),
    (b"inherits", Kind::Inherits),
];

pub fn begins_segment(sort: WordSort, b: u8) -> bool
    ensures { result ≡ spec.begins_segment sort b }
{
    match sort {
        WordSort::Type => b.is_ascii_uppercase(),
        WordSort::Name => b.is_ascii_lowercase() || b == b'_',
        WordSort::Variable => b.is_ascii_lowercase() || b == b'_',
    }
}

fn takes_dash(sort: WordSort) -> bool
    ensures { result ≡ spec.takes_dash sort }
{
    match sort {
        WordSort::Variable => false,
        WordSort::Name => true,
        WordSort::Type => true,
    }
}

fn continues_word(sort: WordSort, bytes: &[u8], at: usize) -> bool
    requires { at < length bytes.now }
    ensures value { result ≡ spec.continues_word sort (slice_index bytes.now at) (drop (at + 1) bytes.now) }
    ensures ascii { result ≡ true → slice_index bytes.now at < 128 }
    ensures second { result ≡ true → slice_index bytes.now at ≡ 58 → slice_index bytes.now (at + 1) ≡ 58 }
{
    match bytes[at] {
        b if is_word(b) => true,
        b'-' => takes_dash(sort) && is_word(byte(bytes, at + 1)),
        b':' => byte(bytes, at + 1) == b':' && begins_segment(sort, byte(bytes, at + 2)),
        _ => false,
    }
}

/// Whether a word goes on with the byte at this place: whether the next byte is then the second of `::`, and none where
/// the word ends. The flag says that this byte is one.
#[tactic(auto, using(crate::proofs::WordLemmas::lower_goes, crate::proofs::WordLemmas::plain_goes, crate::proofs::WordLemmas::second_goes, crate::proofs::WordLemmas::other_goes, crate::proofs::WordLemmas::word_stops))]
fn goes_on(sort: WordSort, bytes: &[u8], at: usize, is_second: bool) -> Option<bool>
    requires { at < length bytes.now }
    ensures goes { IfSome result (λ next. spec.word_end sort is_second at (drop at bytes.now) ≡ spec.word_end sort next (at + 1) (drop (at + 1) bytes.now)) }
    ensures stops { IfNone result (spec.word_end sort is_second at (drop at bytes.now) ≡ at) }
    ensures ascii { IfSome result (λ _. is_second ≡ false → slice_index bytes.now at < 128) }
    ensures second { IfSome result (λ next. next ≡ true → slice_index bytes.now (at + 1) ≡ 58) }
{
    // Most bytes of a word are such, and tell this alone.
    if bytes[at].is_ascii_lowercase() {
        return Some(false);
    }
    if is_word(bytes[at]) || is_second {
        return Some(false);
    }
    if continues_word(sort, bytes, at) {
        Some(bytes[at] == b':')
    } else {
        None
    }
}

/// The length of a word that begins here.
pub fn word_len(sort: WordSort, bytes: &[u8]) -> usize
    requires { spec.begins_word sort bytes.now ≡ true }
    ensures value { result ≡ spec.word_len sort bytes.now }
    ensures within { (0 < result) × (result ≤ length bytes.now) }
    ensures ascii { slice_index bytes.now (result - 1) < 128 }
{
    let mut is_second = byte(bytes, 0) == b':';
    for at in 1..bytes.len() {
        match goes_on(sort, bytes, at, is_second) {
            None => return at,
            Some(next) => is_second = next,
        }
    }
    bytes.len()
}

/// Whether a word of this sort begins here.
pub fn begins_word(sort: WordSort, bytes: &[u8]) -> bool
    ensures { result ≡ spec.begins_word sort bytes.now }
{
    let first = byte(bytes, 0);
    begins_segment(sort, first)
        || (first == b':' && byte(bytes, 1) == b':' && begins_segment(sort, byte(bytes, 2)))
}

fn named(mut table: &[(&[u8], Kind)], spelling: &[u8]) -> Kind
    ensures { result ≡ spec.named (map (λ w. (w.0.now, w.1)) table.entry.now) spelling.now }
{
    while let [word, rest @ ..] = table {
        if spelling == word.0 {
            return word.1;
        }
        table = rest;
    }
    Kind::Name
}

/// The words of this length.
fn words_of(len: usize) -> &'static [(&'static [u8], Kind)]
    ensures { map (λ w. (w.0.now, w.1)) result.now ≡ spec.words_of_length len (map (λ w. (w.0.now, w.1)) WORDS) }
{
    match len {
        2 => &WORDS[..3],
        3 => &WORDS[3..5],
        4 => &WORDS[5..11],
        5 => &WORDS[11..16],
        6 => &WORDS[16..19],
        7 => &WORDS[19..25],
        8 => &WORDS[25..],
        _ => &[],
    }
}

#[tactic(auto, unfolding(crate::specs::Words::name_kind), using(crate::proofs::WordLemmas::named_by_length))]
fn name_kind(spelling: &[u8]) -> Kind
    ensures { result ≡ spec.name_kind spelling.now }
{
    named(words_of(spelling.len()), spelling)
}

/// A name, with its kind.
#[tactic(auto, unfolding(crate::specs::Words::name))]
pub fn name(bytes: &[u8]) -> Front
    requires { spec.begins_word WordSort.Name bytes.now ≡ true }
    ensures value { result ≡ spec.name bytes.now }
    ensures piece { IsPiece bytes.now result }
{
    let len = word_len(WordSort::Name, bytes);
    Front::new(Found::Word(name_kind(&bytes[..len])), len)
}

/// A type.
#[tactic(auto, unfolding(crate::specs::Words::type_name))]
pub fn type_name(bytes: &[u8]) -> Front
    requires { spec.begins_word WordSort.Type bytes.now ≡ true }
    ensures value { result ≡ spec.type_name bytes.now }
    ensures piece { IsPiece bytes.now result }
{
    let len = word_len(WordSort::Type, bytes);
    Front::new(Found::Word(Kind::Type), len)
}

fn variable_kind(spelling: &[u8]) -> Kind
    ensures { result ≡ spec.variable_kind spelling.now }
{
    if spelling.contains(&b':') {
        Kind::QualifiedVariable
    } else {
        Kind::Variable
    }
}

/// A variable.
#[tactic(auto, unfolding(crate::specs::Words::variable))]
pub fn variable(bytes: &[u8]) -> Front
    requires { slice_index bytes.now 0 ≡ 36 }
    ensures value { result ≡ spec.variable bytes.now }
    ensures piece { IsPiece bytes.now result }
{
    let behind = &bytes[1..];
    if !begins_word(WordSort::Variable, behind) {
        return bad(bytes);
    }
    let len = word_len(WordSort::Variable, behind);
    Front::new(Found::Dollar(variable_kind(&behind[..len])), len + 1)
}
