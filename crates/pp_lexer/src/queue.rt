//! The tokens of a file, as they are taken one after another.

ghost use Rattle.std.specs.Prelude.{◌≡◌, ◌<◌, ◌^◌, [], ◌∷◌, drop, length, MatchOption};

use crate::token::Token;
use crate::tokens::Tokens;
use std::marker::Model;

/// After as many tokens their memory is given back.
const TOKENS_BETWEEN_RETURNS: usize = 4096;

/// The tokens of a file that are left. What was taken gives its memory back, so that a long text does not hold all of its
/// tokens until its tree is there.
#[derive(Debug, Drop)]
pub struct Queue<'a> {
    /// The tokens from the last one to the next one.
    behind: Vec<Token<'a>>,
}

impl<'a> Model for Queue<'a> {
    ghost use Rattle.std.specs.Prelude.{List, reverse};
    ghost use Rattle.std.specs.Coded.{coded_list};
    ghost use Rattle.pp_lexer.specs.Seen.{Token, token_code};
    ghost use Rattle.pp_lexer.specs.contracts.kind.Kind as kinds;

    ghost Value = { List Token };

    ghost coded = { coded_list (token_code kinds.the_row.coded) };

    ghost view = { λ q. reverse q.behind.items };
}

impl<'a> Queue<'a> {
    #[tactic(auto, using(crate::proofs::QueueLemmas::twice))]
    pub fn new(tokens: Tokens<'a>) -> Queue<'a>
        ensures { result ≡ tokens.entry }
    {
        let mut behind = tokens.into_vec();
        behind.reverse();
        Queue { behind }
    }

    #[tactic(auto, using(crate::proofs::QueueLemmas::same_length))]
    pub fn len(&self) -> usize
        ensures value { result ≡ length self.now }
        ensures fits { result < 2 ^ 63 }
    {
        self.behind.len()
    }

    /// The next token.
    pub fn first(&self) -> Option<&Token<'a>>
        ensures { MatchOption result (self.now ≡ []) (λ t. self.now ≡ t.now ∷ drop 1 self.now) }
    {
        self.behind.as_slice().last()
    }

    /// Takes the next token.
    pub fn take(&mut self) -> Option<Token<'a>>
        ensures { MatchOption result ((self.old ≡ []) × (self.new ≡ [])) (λ t. self.old ≡ t ∷ self.new) }
    {
        if self.behind.len() % TOKENS_BETWEEN_RETURNS == 0 {
            self.behind.shrink_to_fit();
        }
        self.behind.pop()
    }
}
