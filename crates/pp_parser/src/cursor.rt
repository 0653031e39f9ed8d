//! A cursor over the tokens of a file.

ghost use Rattle.std.specs.Prelude.{◌≡◌, ◌+◌, length, true, Some, None, Ok, Err};
ghost use Rattle.pp_parser.specs.Input as spec;
ghost use Rattle.pp_parser.specs.Input.{Reads, Takes};
ghost use Rattle.pp_parser.specs.Keys.{earlier_line};
ghost use Rattle.pp_parser.specs.Kinds.{is_name, is_word, is_bar, ends_params};

use crate::kinds::{ends_params, is_bar, is_name, is_word};
use crate::refusal::Refusal;
use pp_lexer::{Kind, Queue, Token};
use std::marker::Model;

/// The tokens that are left, and the line of the first key that stood twice in its hash literal so far.
#[derive(Drop)]
pub struct Cursor<'a> {
    left: Queue<'a>,
    doubled: Option<u32>,
}

impl<'a> Model for Cursor<'a> {
    ghost use Rattle.pp_parser.specs.Input.{Input, input_code};

    ghost Value = { Input };

    ghost coded = { input_code };

    ghost view = { λ c. record { left = c.left; doubled = c.doubled } };
}

impl<'a> Cursor<'a> {
    pub fn new(left: Queue<'a>) -> Cursor<'a>
        ensures { result ≡ record { left = left.entry; doubled = None } }
    {
        Cursor {
            left,
            doubled: None,
        }
    }

    /// The line of the first key that stood twice in its hash literal.
    pub fn doubled(&self) -> Option<u32>
        ensures { result ≡ self.now.doubled }
    {
        self.doubled
    }

    /// The kind of the next token; none is the end of the file.
    #[tactic(auto, unfolding(crate::specs::Input::kind), using(crate::proofs::Nexts::kind_none, crate::proofs::Nexts::kind_some))]
    pub fn peek(&self) -> Option<Kind>
        ensures { result ≡ spec.kind self.now }
    {
        match self.left.first() {
            None => None,
            Some(token) => Some(token.kind()),
        }
    }

    /// The line of the next token, or 0 at the end of the file.
    #[tactic(auto, using(crate::proofs::Nexts::line_none, crate::proofs::Nexts::line_some))]
    pub fn line(&self) -> u32
        ensures { result ≡ spec.line_at self.now.left }
    {
        match self.left.first() {
            None => 0,
            Some(token) => token.line(),
        }
    }

    /// How often a list is to be gone on with at the most: each turn takes a token, and one more sees the end.
    pub fn turns(&self) -> usize
        ensures { result ≡ spec.turns self.now }
    {
        self.left.len() + 1
    }

    pub fn refusal(&self) -> Refusal
        ensures { result ≡ spec.refusal self.now }
    {
        Refusal::Wrong(self.left.len())
    }

    /// The next token, whatever its kind.
    #[tactic(auto, unfolding(crate::specs::Input::take))]
    pub fn take(&mut self) -> Result<Token<'a>, Refusal>
        ensures { Takes (spec.take self.old) result self.new }
    {
        match self.left.take() {
            None => Err(Refusal::Wrong(0)),
            Some(token) => Ok(token),
        }
    }

    /// Whether the next token is of this kind.
    #[tactic(auto, unfolding(crate::specs::Input::sees, crate::specs::Kinds::is_kind, crate::specs::Kinds::same_kind))]
    pub fn sees(&self, kind: Kind) -> bool
        ensures { result ≡ spec.sees kind self.now }
    {
        match self.peek() {
            None => false,
            Some(next) => next == kind,
        }
    }

    /// A token of this kind.
    #[tactic(auto, unfolding(crate::specs::Input::expect))]
    pub fn expect(&mut self, kind: Kind) -> Result<Token<'a>, Refusal>
        ensures { Takes (spec.expect kind self.old) result self.new }
    {
        if !self.sees(kind) {
            return Err(self.refusal());
        }
        self.take()
    }

    /// A name.
    #[tactic(auto, unfolding(crate::specs::Input::expect_any))]
    pub fn expect_name(&mut self) -> Result<Token<'a>, Refusal>
        ensures { Takes (spec.expect_any is_name self.old) result self.new }
    {
        if !is_name(self.peek()) {
            return Err(self.refusal());
        }
        self.take()
    }

    /// A name or a keyword.
    #[tactic(auto, unfolding(crate::specs::Input::expect_any))]
    pub fn expect_word(&mut self) -> Result<Token<'a>, Refusal>
        ensures { Takes (spec.expect_any is_word self.old) result self.new }
    {
        if !is_word(self.peek()) {
            return Err(self.refusal());
        }
        self.take()
    }

    /// A bar of a lambda's parameters.
    #[tactic(auto, unfolding(crate::specs::Input::expect_any))]
    pub fn expect_bar(&mut self) -> Result<Token<'a>, Refusal>
        ensures { Takes (spec.expect_any is_bar self.old) result self.new }
    {
        if !is_bar(self.peek()) {
            return Err(self.refusal());
        }
        self.take()
    }

    /// A bar that may end the parameters of a template.
    #[tactic(auto, unfolding(crate::specs::Input::expect_any))]
    pub fn expect_params_end(&mut self) -> Result<Token<'a>, Refusal>
        ensures { Takes (spec.expect_any ends_params self.old) result self.new }
    {
        if !ends_params(self.peek()) {
            return Err(self.refusal());
        }
        self.take()
    }

    /// Takes a token of this kind, if it comes next.
    #[tactic(auto, unfolding(crate::specs::Input::eat))]
    pub fn eat(&mut self, kind: Kind) -> Result<bool, Refusal>
        ensures { Reads (spec.eat kind self.old) result self.new }
    {
        if !self.sees(kind) {
            return Ok(false);
        }
        self.take()?;
        Ok(true)
    }

    /// A token of this kind, which opens a level.
    #[tactic(auto, unfolding(crate::specs::Input::open_level))]
    pub fn open_level(&mut self, is_deepest: bool, kind: Kind) -> Result<Token<'a>, Refusal>
        ensures { Takes (spec.open_level is_deepest kind self.old) result self.new }
    {
        if !self.sees(kind) {
            return Err(self.refusal());
        }
        if is_deepest {
            return Err(Refusal::Deep(self.left.len()));
        }
        self.take()
    }

    /// Keeps the earlier of the line that was noted so far and this one.
    #[tactic(auto, unfolding(crate::specs::Keys::earlier_line))]
    pub fn note(&mut self, line: Option<u32>)
        ensures { self.new ≡ record { left = self.old.left; doubled = earlier_line self.old.doubled line } }
    {
        if let Some(new) = line {
            self.doubled = match self.doubled {
                None => Some(new),
                Some(old) => Some(old.min(new)),
            };
        }
    }
}
