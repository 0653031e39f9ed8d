//! A token of a manifest.

ghost use Rattle.std.specs.Prelude.{◌≡◌, [], IfOk};
ghost use Rattle.pp_lexer.specs.Digits.{number_said};
ghost use Rattle.pp_lexer.specs.Escapes as escapes;
ghost use Rattle.pp_lexer.specs.Tokens as spec;

use crate::escapes::{Quotes, said};
use crate::kind::Kind;
use crate::numbers::number_said;
use pp_values::{Memory, Text};
use std::alloc::Global;
use std::marker::Model;

/// How a token says something by its spelling.
#[derive(Clone, Copy, Debug)]
pub enum Manner {
    /// It says nothing.
    Nothing,
    /// It says what is written.
    Written,
    /// It says what these quotes make of what stands between them.
    Quoted(Quotes),
    /// It has the value of these digits, and says nothing else.
    Number,
}

/// A token: what it is, what it says, and the line of its first byte, counted from 1.
///
/// A name, a type and a keyword say what is written. A variable says what stands behind its `$`. A text in single quotes
/// and a run of one in double quotes say what is left without their escapes. A number has its value. All else says nothing.
///
/// It is a part of the manifest's text, and takes no memory of its own. What it says is read where it is asked for, so that
/// it is small: there are as many as a manifest has marks and words, and all stay until the tree is there.
#[derive(Debug, Drop)]
pub struct Token<'a> {
    spelling: &'a str,
    line: u32,
    kind: Kind,
    manner: Manner,
}

impl<'a> Model for Token<'a> {
    ghost use Rattle.pp_lexer.specs.Seen.{Token, token_code};
    ghost use Rattle.pp_lexer.specs.Tokens.{seen};
    ghost use Rattle.pp_lexer.specs.contracts.kind.Kind as kinds;

    ghost Value = { Token };

    ghost coded = { token_code kinds.the_row.coded };

    ghost view = { λ t. seen t.manner t.kind t.spelling.now t.line };
}

impl<'a> Token<'a> {
    /// A token that says nothing.
    pub fn mark(kind: Kind, line: u32) -> Token<'a>
        ensures { result ≡ spec.token kind [] line }
    {
        Token {
            spelling: "",
            line,
            kind,
            manner: Manner::Nothing,
        }
    }

    /// A token that says what is written.
    pub fn word(kind: Kind, spelling: &'a str, line: u32) -> Token<'a>
        ensures { result ≡ spec.token kind spelling.now line }
    {
        Token {
            spelling,
            line,
            kind,
            manner: Manner::Written,
        }
    }

    /// A text, or a run of one, from what stands between its quotes.
    pub fn text_in(kind: Kind, quotes: Quotes, spelling: &'a str, line: u32) -> Token<'a>
        ensures { result ≡ spec.token kind (escapes.said quotes 0 spelling.now) line }
    {
        Token {
            spelling,
            line,
            kind,
            manner: Manner::Quoted(quotes),
        }
    }

    /// A number.
    pub fn digits(spelling: &'a str, line: u32) -> Token<'a>
        ensures { result ≡ spec.number_token (number_said spelling.now) line }
    {
        Token {
            spelling,
            line,
            kind: Kind::Number,
            manner: Manner::Number,
        }
    }

    pub fn kind(&self) -> Kind
        ensures { result ≡ self.now.kind }
    {
        self.kind
    }

    pub fn line(&self) -> u32
        ensures { result ≡ self.now.line }
    {
        self.line
    }

    /// What it says.
    pub fn text(&self, alloc: Global) -> Result<Text, Memory>
        ensures { IfOk result (λ t. t ≡ self.now.text) }
    {
        match self.manner {
            Manner::Written => Text::from_str(alloc, self.spelling),
            Manner::Quoted(quotes) => said(alloc, quotes, self.spelling),
            Manner::Nothing | Manner::Number => Text::from_str(alloc, ""),
        }
    }

    /// The value of a number, and 0 for all else.
    pub fn number(&self) -> i64
        ensures { result ≡ self.now.number }
    {
        match self.manner {
            Manner::Number => number_said(self.spelling.as_bytes()),
            _ => 0,
        }
    }
}
