//! A list of tokens.

ghost use Rattle.std.specs.Prelude.{◌≡◌, [], ◌∷◌, ◌++◌, ◌↔◌, length, is_ok, if◌then◌else◌, IsTrue, OnOk, slice_get};
ghost use Rattle.pp_lexer.specs.Marked as spec;

use crate::kind::Kind;
use crate::token::Token;
use pp_values::Memory;
use std::alloc::Global;
use std::marker::Model;

/// A list of tokens.
#[derive(Debug, Drop)]
pub struct Tokens<'a> {
    items: Vec<Token<'a>>,
}

impl<'a> Model for Tokens<'a> {
    ghost use Rattle.std.specs.Prelude.{List};
    ghost use Rattle.std.specs.Coded.{coded_list};
    ghost use Rattle.pp_lexer.specs.Seen.{Token, token_code};
    ghost use Rattle.pp_lexer.specs.contracts.kind.Kind as kinds;

    ghost Value = { List Token };

    ghost coded = { coded_list (token_code kinds.the_row.coded) };

    ghost view = { λ l. l.items.items };
}

impl<'a> Tokens<'a> {
    pub fn new(alloc: Global) -> Tokens<'a>
        ensures { result ≡ [] }
    {
        Tokens {
            items: Vec::new(alloc),
        }
    }

    pub fn len(&self) -> usize
        ensures { result ≡ length self.now }
    {
        self.items.len()
    }

    pub fn is_empty(&self) -> bool
        ensures { IsTrue result ↔ (self.now ≡ []) }
    {
        self.items.is_empty()
    }

    pub fn as_slice(&self) -> &[Token<'a>]
        ensures { result.now ≡ self.now }
    {
        self.items.as_slice()
    }

    /// Appends a token. Where there is no memory, the list stays as it was.
    pub fn push(&mut self, token: Token<'a>) -> Result<(), Memory>
        ensures { self.new ≡ (if is_ok result then self.old ++ token.entry ∷ [] else self.old) }
    {
        self.items.push(token)?;
        Ok(())
    }

    /// Appends these tokens.
    pub fn append(&mut self, more: Tokens<'a>) -> Result<(), Memory>
        ensures { OnOk result (self.new ≡ self.old ++ more.entry) }
    {
        let mut more = more.into_vec();
        self.items.append(&mut more)?;
        Ok(())
    }

    /// The kind of the token at a place, counted from 0.
    pub fn kind_at(&self, place: usize) -> Option<Kind>
        ensures { result ≡ spec.kind_of (slice_get self.now place) }
    {
        match self.items.get(place) {
            Some(token) => Some(token.kind()),
            None => None,
        }
    }

    /// Puts a token of this kind, which says nothing, in the place of one, on its line.
    pub fn mark(&mut self, place: usize, kind: Kind)
        ensures { self.new ≡ spec.marked place kind (slice_get self.old place) self.old }
    {
        if place < self.items.len() {
            let line = self.items[place].line();
            self.items[place] = Token::mark(kind, line);
        }
    }

    /// The tokens as they lie in memory.
    pub(crate) fn into_vec(self) -> Vec<Token<'a>>
        ensures { result.items ≡ self.entry }
    {
        self.items
    }
}
