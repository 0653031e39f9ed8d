//! A piece of a template.

ghost use Rattle.std.specs.Prelude.{◌≡◌};
ghost use Rattle.epp_text.specs.Pieces as spec;

use std::marker::Model;

/// What a piece is.
#[derive(Clone, Copy, Debug, PartialEq, Eq)]
pub enum PieceKind {
    /// What stands outside of tags, and is emitted. It is never empty.
    Text,
    /// What stands in a tag `<% .. %>`.
    Code,
    /// What stands in a tag `<%= .. %>`, whose value is emitted.
    Value,
    /// A tag that nothing ends. It has no text, and is the last piece.
    Unclosed,
}

/// A piece of a template: what it is, its text (of a tag without its ends), and the line of its first byte, counted from 1.
///
/// It is a part of the template, and takes no memory of its own.
#[derive(Debug, Drop)]
pub struct Piece<'a> {
    kind: PieceKind,
    text: &'a str,
    line: u32,
}

impl<'a> Model for Piece<'a> {
    ghost use Rattle.epp_text.specs.Seen.{Piece as Seen, piece_code};
    ghost use Rattle.epp_text.specs.contracts.piece.PieceKind as kinds;

    ghost Value = { Seen };

    ghost coded = { piece_code kinds.the_row.coded };

    ghost view = { λ p. record { kind = p.kind; text = p.text.now; line = p.line } };
}

impl<'a> Piece<'a> {
    pub fn new(kind: PieceKind, text: &'a str, line: u32) -> Piece<'a>
        ensures { result ≡ spec.piece kind text.now line }
    {
        Piece { kind, text, line }
    }

    pub fn kind(&self) -> PieceKind
        ensures { result ≡ self.now.kind }
    {
        self.kind
    }

    pub fn text(&self) -> &'a str
        ensures { result.now ≡ self.now.text }
    {
        self.text
    }

    pub fn line(&self) -> u32
        ensures { result ≡ self.now.line }
    {
        self.line
    }
}
