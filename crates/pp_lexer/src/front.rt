//! What stands at the front of a text.

ghost use Rattle.std.specs.Prelude.{◌≡◌, ◌<◌, length};
ghost use Rattle.pp_lexer.specs.Fronts as spec;
ghost use Rattle.pp_lexer.specs.Fronts.{IsPiece};

use crate::kind::Kind;

/// What stands at a place, by where the token's text comes from.
#[derive(Clone, Copy, Debug)]
pub enum Found {
    /// White space, or a comment.
    Blank,

    /// A comment that the end of the file cuts off.
    CutOff,

    /// A token that says nothing.
    Mark(Kind),

    /// A token that says what is written.
    Word(Kind),

    /// A token that says what is written behind its `$`.
    Dollar(Kind),

    /// A number of this value.
    Number(i64),

    /// A text in single quotes.
    Quoted,

    /// A run of a text in double quotes.
    Run,
}

/// What stands at the front of a text, and its length in bytes.
#[derive(Clone, Copy, Debug)]
pub struct Front {
    pub found: Found,
    pub len: usize,
}

impl Front {
    pub fn new(found: Found, len: usize) -> Front
        ensures { result ≡ spec.front found len }
    {
        Front { found, len }
    }

    pub fn mark(kind: Kind, len: usize) -> Front
        ensures { result ≡ spec.mark kind len }
    {
        Front::new(Found::Mark(kind), len)
    }
}

/// No token can be read here. Nothing behind it is read.
pub fn bad(bytes: &[u8]) -> Front
    requires { 0 < length bytes.now }
    ensures value { result ≡ spec.bad bytes.now }
    ensures piece { IsPiece bytes.now result }
{
    Front::mark(Kind::Bad, bytes.len())
}
