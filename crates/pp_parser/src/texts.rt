//! Texts with interpolation.

ghost use Rattle.std.specs.Prelude.{◌≡◌, IfOk, [], false};
ghost use Rattle.pp_parser.specs.Expressions as spec;
ghost use Rattle.pp_parser.specs.Input.{Reads, turns, repeat_from};
ghost use Rattle.pp_parser.specs.Levels.{within};
ghost use Rattle.pp_parser.specs.Nests.{Nests};

use crate::cursor::Cursor;
use crate::inset::{Inset, InsetTree};
use crate::kinds::is_name;
use crate::lists::put;
use crate::operators::LOOSEST;
use crate::refusal::Refusal;
use crate::rules::Rules;
use crate::started::Started;
use pp_lexer::Kind;
use pp_tree::{Expr, Form, Piece};
use pp_values::{Items, Memory, Text};
use std::alloc::Global;

/// A first run of characters as the pieces of a text. It is none where there are no characters.
fn first_pieces(alloc: Global, said: Text) -> Result<Items<Piece>, Memory>
    ensures { IfOk result (λ found. found ≡ spec.pieces said []) }
{
    let mut found = Items::new(alloc);
    if !said.as_str().as_bytes().is_empty() {
        found.push(Piece::Text(said))?;
    }
    Ok(found)
}

impl<F: Fn(Global, &mut Cursor<'_>, usize, Inset) -> Result<InsetTree, Refusal>> Rules<F> {
    /// `${ expression }`
    #[tactic(auto, unfolding(crate::specs::Expressions::interpolation))]
    fn interpolation(&self, tokens: &mut Cursor<'_>) -> Result<Expr, Refusal>
        requires { Nests self.now.levels (F.pre self.now.inner) (F.post self.now.inner) }
        ensures { Reads (spec.interpolation (within self.now.levels) tokens.old) result tokens.new }
    {
        self.open(tokens, Kind::InterpolationBegin)?;
        let x = self.interpolated_in(tokens)?;
        tokens.expect(Kind::InterpolationEnd)?;
        Ok(x)
    }

    /// A run of characters, a variable or an interpolation, or nothing.
    #[tactic(auto, unfolding(crate::specs::Expressions::piece_rule))]
    fn piece(&self, tokens: &mut Cursor<'_>) -> Result<Option<Piece>, Refusal>
        requires { Nests self.now.levels (F.pre self.now.inner) (F.post self.now.inner) }
        ensures { Reads (spec.piece_rule (within self.now.levels) tokens.old) result tokens.new }
    {
        match tokens.peek() {
            Some(Kind::Piece) => {
                let said = tokens.take()?.text(self.alloc)?;
                Ok(Some(Piece::Text(said)))
            }
            Some(Kind::VariableInText) => {
                let token = tokens.take()?;
                let form = Form::Variable(token.text(self.alloc)?);
                Ok(Some(Piece::Value(Expr::new(self.alloc, token.line(), form)?)))
            }
            Some(Kind::InterpolationBegin) => {
                let x = self.interpolation(tokens)?;
                Ok(Some(Piece::Value(x)))
            }
            _ => Ok(None),
        }
    }

    /// Pieces behind those that were found.
    #[tactic(auto, using(crate::proofs::Turns::repeat_turn, crate::proofs::Turns::repeat_none))]
    fn pieces_from(
        &self,
        tokens: &mut Cursor<'_>,
        mut found: Items<Piece>,
    ) -> Result<Items<Piece>, Refusal>
        requires { Nests self.now.levels (F.pre self.now.inner) (F.post self.now.inner) }
        ensures { Reads (repeat_from (spec.piece_rule (within self.now.levels)) (turns tokens.old) found tokens.old) result tokens.new }
    {
        for _turn in 0..tokens.turns() {
            match self.piece(tokens)? {
                None => return Ok(found),
                Some(piece) => {
                    let more = !tokens.sees(Kind::TextEnd);
                    put(self.alloc, &mut found, piece, more)?;
                }
            }
        }
        Err(tokens.refusal())
    }

    /// Behind a first run of characters.
    #[tactic(auto, unfolding(crate::specs::Expressions::text_after), using(crate::proofs::Behind::text_behind))]
    fn text_after(&self, tokens: &mut Cursor<'_>, said: Text) -> Result<Form, Refusal>
        requires { Nests self.now.levels (F.pre self.now.inner) (F.post self.now.inner) }
        ensures { Reads (spec.text_after (within self.now.levels) said tokens.old) result tokens.new }
    {
        match tokens.peek() {
            Some(Kind::TextEnd) => {
                tokens.take()?;
                Ok(Form::Text(said))
            }
            _ => {
                let first = first_pieces(self.alloc, said)?;
                let found = self.pieces_from(tokens, first)?;
                tokens.expect(Kind::TextEnd)?;
                Ok(Form::Interpolated(found))
            }
        }
    }

    /// A text in double quotes.
    #[tactic(auto, unfolding(crate::specs::Expressions::quoted))]
    pub fn quoted(&self, tokens: &mut Cursor<'_>) -> Result<Form, Refusal>
        requires { Nests self.now.levels (F.pre self.now.inner) (F.post self.now.inner) }
        ensures { Reads (spec.quoted (within self.now.levels) tokens.old) result tokens.new }
    {
        tokens.expect(Kind::TextBegin)?;
        match tokens.peek() {
            Some(Kind::Piece) => {
                let said = tokens.take()?.text(self.alloc)?;
                self.text_after(tokens, said)
            }
            _ => {
                let nothing = Text::from_str(self.alloc, "")?;
                self.text_after(tokens, nothing)
            }
        }
    }

    /// A name at the beginning of what stands between `${` and `}` is a variable where `}`, `[` or `.` follows it.
    #[tactic(auto, unfolding(crate::specs::Expressions::variable_or_call))]
    fn variable_or_call(&self, tokens: &mut Cursor<'_>, name: Text) -> Result<Form, Refusal>
        requires { Nests self.now.levels (F.pre self.now.inner) (F.post self.now.inner) }
        ensures { Reads (spec.variable_or_call (within self.now.levels) name tokens.old) result tokens.new }
    {
        match tokens.peek() {
            Some(Kind::InterpolationEnd | Kind::TightBracket | Kind::OpenBracket | Kind::Dot) => {
                Ok(Form::Variable(name))
            }
            _ => self.call_or_name(tokens, false, name),
        }
    }

    /// What stands between `${` and `}`, where a name begins it.
    #[tactic(auto, unfolding(crate::specs::Expressions::begun_by_name))]
    fn begun_by_name(&self, tokens: &mut Cursor<'_>) -> Result<Expr, Refusal>
        requires { Nests self.now.levels (F.pre self.now.inner) (F.post self.now.inner) }
        ensures { Reads (spec.begun_by_name (within self.now.levels) tokens.old) result tokens.new }
    {
        let token = tokens.take()?;
        let form = self.variable_or_call(tokens, token.text(self.alloc)?)?;
        let start = Started {
            base: Expr::new(self.alloc, token.line(), form)?,
            postfixes: Items::new(self.alloc),
        };
        self.chain(tokens, false, LOOSEST, Some(start))
    }

    /// What stands between `${` and `}`.
    #[tactic(auto, unfolding(crate::specs::Expressions::interpolated))]
    pub fn interpolated(&self, tokens: &mut Cursor<'_>) -> Result<Expr, Refusal>
        requires { Nests self.now.levels (F.pre self.now.inner) (F.post self.now.inner) }
        ensures { Reads (spec.interpolated (within self.now.levels) tokens.old) result tokens.new }
    {
        if is_name(tokens.peek()) {
            self.begun_by_name(tokens)
        } else {
            self.whole(tokens, false, false)
        }
    }
}
