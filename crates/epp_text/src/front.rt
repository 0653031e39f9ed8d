//! What stands at a place in a template.

ghost use Rattle.std.specs.Prelude.{◌≡◌};
ghost use Rattle.epp_text.specs.Pieces as spec;

use crate::piece::PieceKind;

/// What stands at a place in a template.
#[derive(Clone, Copy, Debug)]
pub struct Front {
    /// The kind of its piece, or none for a comment.
    pub kind: Option<PieceKind>,
    /// Where its text begins, and where it ends.
    pub from: usize,
    pub to: usize,
    /// Its length in bytes.
    pub len: usize,
    /// Whether a line begins behind it, since it takes a line break with it.
    pub begins: bool,
}

impl Front {
    pub fn new(kind: Option<PieceKind>, from: usize, to: usize, len: usize, begins: bool) -> Front
        ensures { result ≡ spec.front kind from to len begins }
    {
        Front {
            kind,
            from,
            to,
            len,
            begins,
        }
    }
}
