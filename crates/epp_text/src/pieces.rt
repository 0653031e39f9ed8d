//! The pieces of a template.

ghost use Rattle.std.specs.Prelude.{◌≡◌, ℕ, ◌+◌, ◌^◌, ◌<◌, ◌≤◌, ◌++◌, ◌∷◌, [], length, slice_index, IfOk, OnOk, Some, false};
ghost use Rattle.epp_text.specs.Fronts.{IsPart};
ghost use Rattle.epp_text.specs.Pieces as spec;
ghost use Rattle.epp_text.specs.declared.piece.PieceKind.TheVariants.{Text};

use crate::bytes::{line_behind, opens, writes_closer, writes_opener};
use crate::front::Front;
use crate::piece::{Piece, PieceKind};
use crate::runs::run;
use crate::tags::tag;
use pp_values::Memory;
use std::alloc::Global;
use std::marker::Model;

/// The pieces of a template, in order.
#[derive(Debug, Drop)]
pub struct Pieces<'a> {
    items: Vec<Piece<'a>>,
}

impl<'a> Model for Pieces<'a> {
    ghost use Rattle.std.specs.Prelude.{List};
    ghost use Rattle.std.specs.Coded.{coded_list};
    ghost use Rattle.epp_text.specs.Seen.{Piece, piece_code};
    ghost use Rattle.epp_text.specs.contracts.piece.PieceKind as kinds;

    ghost Value = { List Piece };

    ghost coded = { coded_list (piece_code kinds.the_row.coded) };

    ghost view = { λ p. p.items.items };
}

impl<'a> Pieces<'a> {
    pub fn new(alloc: Global) -> Pieces<'a>
        ensures { result ≡ [] }
    {
        Pieces {
            items: Vec::new(alloc),
        }
    }

    pub fn as_slice(&self) -> &[Piece<'a>]
        ensures { result.now ≡ self.now }
    {
        self.items.as_slice()
    }

    pub fn push(&mut self, piece: Piece<'a>) -> Result<(), Memory>
        ensures { OnOk result (self.new ≡ self.old ++ piece.entry ∷ []) }
    {
        self.items.push(piece)?;
        Ok(())
    }
}

/// `<%%` or `%%>`
fn written(text: &str, from: usize, to: usize) -> Front
    requires within { (3 ≤ length text.now) × (from < 2) × (to ≤ 3) × (from ≤ to) }
    requires ascii { (k : ℕ) → k < 3 → slice_index text.now k < 128 }
    ensures value { result ≡ spec.front (Some Text) from to 3 false }
    ensures part { IsPart text.now result }
{
    Front::new(Some(PieceKind::Text), from, to, 3, false)
}

/// What stands at the front of a text that is not empty.
#[tactic(auto, unfolding(crate::specs::Pieces::front_at), using(crate::proofs::Cuts::opener_ascii, crate::proofs::Cuts::closer_ascii))]
fn front_at(begins: bool, text: &str) -> Front
    requires { 0 < length text.now }
    ensures value { result ≡ spec.front_at begins text.now }
    ensures part { IsPart text.now result }
{
    let bytes = text.as_bytes();
    if writes_opener(bytes) {
        written(text, 0, 2)
    } else if writes_closer(bytes) {
        written(text, 1, 3)
    } else if opens(bytes) {
        tag(text)
    } else {
        run(begins, text)
    }
}

/// Appends the piece of this kind and text, where there is one.
fn put<'a>(
    found: &mut Pieces<'a>,
    kind: Option<PieceKind>,
    text: &'a str,
    line: u32,
) -> Result<(), Memory>
    ensures { OnOk result (found.new ≡ found.old ++ spec.given kind text.now line) }
{
    match kind {
        None => Ok(()),
        Some(PieceKind::Text) => put_text(found, text, line),
        Some(kind) => found.push(Piece::new(kind, text, line)),
    }
}

/// Appends a text that is not empty.
#[tactic(auto, using(crate::proofs::Turns::no_text, crate::proofs::Turns::some_text))]
fn put_text<'a>(found: &mut Pieces<'a>, text: &'a str, line: u32) -> Result<(), Memory>
    ensures { OnOk result (found.new ≡ found.old ++ spec.text_piece text.now line) }
{
    if text.is_empty() {
        return Ok(());
    }
    found.push(Piece::new(PieceKind::Text, text, line))
}

/// Appends what stands at the front of a text.
fn put_front<'a>(
    found: &mut Pieces<'a>,
    front: Front,
    text: &'a str,
    line: u32,
) -> Result<(), Memory>
    requires { IsPart text.now front }
    ensures { OnOk result (found.new ≡ found.old ++ spec.given_at front text.now line) }
{
    put(found, front.kind, &text[front.from..front.to], line)
}

/// The pieces of a template: its text, and what stands in its tags.
///
/// `<%` begins a tag and the next `%>` ends it. `<%=` emits a value, `<%#` is a comment, `<%%` is the text `<%` and `%%>`
/// the text `%>`. `<%-` drops the blanks before it up to the beginning of its line, where nothing else stands there, and
/// `-%>` drops the blanks behind it and one line break.
#[tactic(auto, unfolding(crate::specs::Pieces::pieces_of))]
pub fn pieces_of(alloc: Global, text: &str) -> Result<Pieces<'_>, Memory>
    // Places count lines in 32 bits.
    requires { length text.now + 1 < 2 ^ 32 }
    ensures { IfOk result (λ ps. ps ≡ spec.pieces_of text.now) }
{
    let mut found = Pieces::new(alloc);
    let mut begins = true;
    let mut line = 1;
    let mut rest = text;
    while !rest.is_empty() {
        let front = front_at(begins, rest);
        let (here, after) = rest.split_at(front.len);
        put_front(&mut found, front, rest, line)?;
        begins = front.begins;
        line = line_behind(line, here.as_bytes());
        rest = after;
    }
    Ok(found)
}
