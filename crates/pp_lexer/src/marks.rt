//! Punctuation.

ghost use Rattle.std.specs.Prelude.{◌≡◌, ℕ, ◌<◌, ◌≤◌, List, ◌∷◌, length, map, nat_eq, slice_index, true, IfSome};
ghost use Rattle.std.specs.List.{starts_with};
ghost use Rattle.pp_lexer.specs.Fronts.{IsPiece};
ghost use Rattle.pp_lexer.specs.Fronts as fronts;
ghost use Rattle.pp_lexer.specs.Marks as spec;
ghost use Rattle.pp_lexer.specs.Marks.{AllEndInAscii};

use crate::front::{Front, bad};
use crate::kind::Kind;

/// The marks, a longer one before those that it begins with. Where a mark has two kinds, by what stands round it, this is
/// the first of them.
pub const MARKS: [(&[u8], Kind); 42] = [
    (b"<<|", Kind::OpenExported),
    (b"|>>", Kind::CloseExported),
    (b"<<", Kind::Append),
    (b"<|", Kind::OpenCollector),
    (b"|>", Kind::CloseCollector),
    (b"->", Kind::InEdge),
    (b"~>", Kind::InEdgeSub),
    (b"<-", Kind::OutEdge),
    (b"<~", Kind::OutEdgeSub),
    (b"=>", Kind::Arrow),
    (b"+>", Kind::PlusArrow),
    (b"==", Kind::Equal),
    (b"!=", Kind::NotEqual),
    (b"=~", Kind::Match),
    (b"!~", Kind::NoMatch),
    (b"<=", Kind::AtMost),
    (b">=", Kind::AtLeast),
    (b">>", Kind::Returns),
    (b"@@", Kind::AtAt),
    (b"{", Kind::OpenBrace),
    (b"}", Kind::CloseBrace),
    (b"(", Kind::OpenParen),
    (b")", Kind::CloseParen),
    (b"[", Kind::OpenBracket),
    (b"]", Kind::CloseBracket),
    (b":", Kind::Colon),
    (b";", Kind::Semicolon),
    (b",", Kind::Comma),
    (b".", Kind::Dot),
    (b"?", Kind::Question),
    (b"@", Kind::At),
    (b"|", Kind::Bar),
    (b"=", Kind::Assign),
    (b"<", Kind::Less),
    (b">", Kind::Greater),
    (b"+", Kind::Plus),
    (b"-", Kind::Minus),
    (b"*", Kind::Star),
    (b"/", Kind::Slash),
    (b"%", Kind::Percent),
    (b"!", Kind::Bang),
    (b"\"", Kind::TextBegin),
];

/// A mark of one byte that begins no other mark.
#[tactic(auto, unfolding(crate::specs::Marks::punctuation))]
fn lone_mark(b: u8) -> Option<Kind>
    ensures value { IfSome result (λ k. (z : List ℕ) → spec.punctuation (b ∷ z) ≡ fronts.mark k 1) }
    ensures ascii { IfSome result (λ _. b < 128) }
{
    match b {
        b'{' => Some(Kind::OpenBrace),
        b'}' => Some(Kind::CloseBrace),
        b'(' => Some(Kind::OpenParen),
        b')' => Some(Kind::CloseParen),
        b'[' => Some(Kind::OpenBracket),
        b']' => Some(Kind::CloseBracket),
        b':' => Some(Kind::Colon),
        b';' => Some(Kind::Semicolon),
        b',' => Some(Kind::Comma),
        b'.' => Some(Kind::Dot),
        b'?' => Some(Kind::Question),
        b'*' => Some(Kind::Star),
        b'/' => Some(Kind::Slash),
        b'%' => Some(Kind::Percent),
        b'"' => Some(Kind::TextBegin),
        _ => None,
    }
}

/// A mark of one byte.
#[tactic(auto, using(crate::proofs::MarkLemmas::lone_is))]
fn found_lone(bytes: &[u8], kind: Kind) -> Front
    requires some { 0 < length bytes.now }
    requires lone { (z : List ℕ) → spec.punctuation (slice_index bytes.now 0 ∷ z) ≡ fronts.mark kind 1 }
    requires ascii { slice_index bytes.now 0 < 128 }
    ensures value { result ≡ spec.punctuation bytes.now }
    ensures piece { IsPiece bytes.now result }
{
    Front::mark(kind, 1)
}

/// A mark that its first two bytes tell, and its length.
#[tactic(auto, unfolding(crate::specs::Marks::punctuation))]
fn paired_mark(first: u8, second: u8) -> Option<(Kind, usize)>
    ensures value { IfSome result (λ m. (z : List ℕ) → spec.punctuation (first ∷ second ∷ z) ≡ fronts.mark m.0 m.1) }
    ensures within { IfSome result (λ m. (0 < m.1) × (m.1 ≤ 2)) }
    ensures ascii { IfSome result (λ _. (first < 128) × (second < 128)) }
{
    match (first, second) {
        (b'=', b'>') => Some((Kind::Arrow, 2)),
        (b'=', b' ') => Some((Kind::Assign, 1)),
        (b'=', b'=') => Some((Kind::Equal, 2)),
        (b'=', b'~') => Some((Kind::Match, 2)),
        (b'!', b'=') => Some((Kind::NotEqual, 2)),
        (b'-', b'>') => Some((Kind::InEdge, 2)),
        (b'~', b'>') => Some((Kind::InEdgeSub, 2)),
        (b'+', b' ') => Some((Kind::Plus, 1)),
        (b'-', b' ') => Some((Kind::Minus, 1)),
        (b'|', b' ') => Some((Kind::Bar, 1)),
        (b'|', b'$') => Some((Kind::Bar, 1)),
        (b'!', b'$') => Some((Kind::Bang, 1)),
        (b'@', b'@') => Some((Kind::AtAt, 2)),
        _ => None,
    }
}

/// A mark that its first two bytes tell.
#[tactic(auto, using(crate::proofs::MarkLemmas::pair_is))]
fn found_pair(bytes: &[u8], kind: Kind, len: usize) -> Front
    requires some { 1 < length bytes.now }
    requires pair { (z : List ℕ) → spec.punctuation (slice_index bytes.now 0 ∷ slice_index bytes.now 1 ∷ z) ≡ fronts.mark kind len }
    requires within { (0 < len) × (len ≤ 2) }
    requires ascii { (slice_index bytes.now 0 < 128) × (slice_index bytes.now 1 < 128) }
    ensures value { result ≡ spec.punctuation bytes.now }
    ensures piece { IsPiece bytes.now result }
{
    Front::mark(kind, len)
}

/// The mark with which a text begins.
fn found_mark(bytes: &[u8], mark: &[u8], kind: Kind) -> Front
    requires begins { starts_with nat_eq bytes.now mark.now ≡ true }
    requires within { length mark.now ≤ length bytes.now }
    requires ascii { spec.ends_in_ascii (mark.now, kind) ≡ true }
    ensures value { result ≡ fronts.mark kind (length mark.now) }
    ensures piece { IsPiece bytes.now result }
{
    Front::mark(kind, mark.len())
}

fn first_mark(mut table: &[(&[u8], Kind)], bytes: &[u8]) -> Front
    requires some { 0 < length bytes.now }
    requires ascii { AllEndInAscii (map (λ m. (m.0.now, m.1)) table.now) }
    ensures value { result ≡ spec.first_mark (map (λ m. (m.0.now, m.1)) table.entry.now) bytes.now }
    ensures piece { IsPiece bytes.now result }
{
    while let [mark, rest @ ..] = table {
        if bytes.starts_with(mark.0) {
            return found_mark(bytes, mark.0, mark.1);
        }
        table = rest;
    }
    bad(bytes)
}

/// The punctuation at the front of a text, by its first two bytes or by the table.
#[tactic(auto, unfolding(crate::specs::Marks::punctuation))]
fn longer_mark(bytes: &[u8]) -> Front
    requires { 0 < length bytes.now }
    ensures value { result ≡ spec.punctuation bytes.now }
    ensures piece { IsPiece bytes.now result }
{
    if bytes.len() < 2 {
        return first_mark(&MARKS, bytes);
    }
    match paired_mark(bytes[0], bytes[1]) {
        Some((kind, len)) => found_pair(bytes, kind, len),
        None => first_mark(&MARKS, bytes),
    }
}

/// The punctuation at the front of a text, if there is any.
pub fn punctuation(bytes: &[u8]) -> Front
    requires { 0 < length bytes.now }
    ensures value { result ≡ spec.punctuation bytes.now }
    ensures piece { IsPiece bytes.now result }
{
    match lone_mark(bytes[0]) {
        Some(kind) => found_lone(bytes, kind),
        None => longer_mark(bytes),
    }
}
