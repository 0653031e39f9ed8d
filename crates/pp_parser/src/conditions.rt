//! Conditions.

ghost use Rattle.std.specs.Prelude.{[], false};
ghost use Rattle.pp_lexer.specs.declared.kind.Kind.TheVariants as k;
ghost use Rattle.pp_parser.specs.Expressions as spec;
ghost use Rattle.pp_parser.specs.Expressions.{is_at};
ghost use Rattle.pp_parser.specs.Input.{Reads, turns, repeat, separated_from, separated_some};
ghost use Rattle.pp_parser.specs.Levels.{within};
ghost use Rattle.pp_parser.specs.Nests.{Nests};

use crate::cursor::Cursor;
use crate::inset::{Inset, InsetTree};
use crate::lists::put;
use crate::refusal::Refusal;
use crate::rules::Rules;
use pp_lexer::Kind;
use pp_tree::{Block, Case, CaseOption, Elsif, Expr, Form, If, Unless};
use pp_values::{Boxed, Items};
use std::alloc::Global;

impl<F: Fn(Global, &mut Cursor<'_>, usize, Inset) -> Result<InsetTree, Refusal>> Rules<F> {
    /// `else` and its block, or nothing.
    #[tactic(auto, unfolding(crate::specs::Expressions::otherwise))]
    fn otherwise(&self, tokens: &mut Cursor<'_>) -> Result<Option<Block>, Refusal>
        requires { Nests self.now.levels (F.pre self.now.inner) (F.post self.now.inner) }
        ensures { Reads (spec.otherwise (within self.now.levels) tokens.old) result tokens.new }
    {
        match tokens.peek() {
            Some(Kind::Else) => {
                tokens.take()?;
                Ok(Some(self.block(tokens)?))
            }
            _ => Ok(None),
        }
    }

    /// A word that opens a level until the end of its condition, and the condition.
    #[tactic(auto, unfolding(crate::specs::Expressions::condition))]
    fn condition(&self, tokens: &mut Cursor<'_>, word: Kind) -> Result<Expr, Refusal>
        requires { Nests self.now.levels (F.pre self.now.inner) (F.post self.now.inner) }
        ensures { Reads (spec.condition (within self.now.levels) word tokens.old) result tokens.new }
    {
        self.open(tokens, word)?;
        self.whole_in(tokens, false)
    }

    /// `elsif condition { statements }`, or nothing.
    #[tactic(auto, unfolding(crate::specs::Expressions::elsif_rule, crate::specs::Expressions::condition))]
    fn elsif(&self, tokens: &mut Cursor<'_>) -> Result<Option<Elsif>, Refusal>
        requires { Nests self.now.levels (F.pre self.now.inner) (F.post self.now.inner) }
        ensures { Reads (spec.elsif_rule (within self.now.levels) tokens.old) result tokens.new }
    {
        match tokens.peek() {
            Some(Kind::Elsif) => {
                self.open(tokens, Kind::Elsif)?;
                let condition = self.whole_in(tokens, false)?;
                let block = self.block(tokens)?;
                Ok(Some(Elsif { condition, block }))
            }
            _ => Ok(None),
        }
    }

    #[tactic(auto, unfolding(crate::specs::Input::repeat), using(crate::proofs::Turns::repeat_turn, crate::proofs::Turns::repeat_none))]
    fn elsifs(&self, tokens: &mut Cursor<'_>) -> Result<Items<Elsif>, Refusal>
        requires { Nests self.now.levels (F.pre self.now.inner) (F.post self.now.inner) }
        ensures { Reads (repeat (spec.elsif_rule (within self.now.levels)) tokens.old) result tokens.new }
    {
        let mut found = Items::new(self.alloc);
        for _turn in 0..tokens.turns() {
            match self.elsif(tokens)? {
                None => return Ok(found),
                Some(elsif) => put(self.alloc, &mut found, elsif, tokens.sees(Kind::Elsif))?,
            }
        }
        Err(tokens.refusal())
    }

    /// `if condition { statements }` and what belongs to it.
    #[tactic(auto, unfolding(crate::specs::Expressions::if_rule))]
    pub fn if_form(&self, tokens: &mut Cursor<'_>) -> Result<Form, Refusal>
        requires { Nests self.now.levels (F.pre self.now.inner) (F.post self.now.inner) }
        ensures { Reads (spec.if_rule (within self.now.levels) tokens.old) result tokens.new }
    {
        let condition = self.condition(tokens, Kind::If)?;
        let block = self.block(tokens)?;
        let elsifs = self.elsifs(tokens)?;
        let otherwise = self.otherwise(tokens)?;
        let choice = If {
            condition,
            block,
            elsifs,
            otherwise,
        };
        Ok(Form::If(Boxed::new(self.alloc, choice)?))
    }

    /// `unless condition { statements }`, and its `else`.
    #[tactic(auto, unfolding(crate::specs::Expressions::unless_rule))]
    pub fn unless_form(&self, tokens: &mut Cursor<'_>) -> Result<Form, Refusal>
        requires { Nests self.now.levels (F.pre self.now.inner) (F.post self.now.inner) }
        ensures { Reads (spec.unless_rule (within self.now.levels) tokens.old) result tokens.new }
    {
        let condition = self.condition(tokens, Kind::Unless)?;
        let block = self.block(tokens)?;
        let otherwise = self.otherwise(tokens)?;
        let choice = Unless {
            condition,
            block,
            otherwise,
        };
        Ok(Form::Unless(Boxed::new(self.alloc, choice)?))
    }

    /// A further option of a `case`, or nothing where `}` ends them.
    #[tactic(auto, unfolding(crate::specs::Expressions::case_options))]
    fn next_option(&self, tokens: &mut Cursor<'_>) -> Result<Option<CaseOption>, Refusal>
        requires { Nests self.now.levels (F.pre self.now.inner) (F.post self.now.inner) }
        ensures { Reads (spec.case_options (within self.now.levels) tokens.old) result tokens.new }
    {
        match tokens.peek() {
            Some(Kind::CloseBrace) => Ok(None),
            _ => Ok(Some(self.case_option_in(tokens)?)),
        }
    }

    #[tactic(auto, unfolding(crate::specs::Input::repeat), using(crate::proofs::Turns::repeat_turn, crate::proofs::Turns::repeat_none))]
    fn case_options(&self, tokens: &mut Cursor<'_>) -> Result<Items<CaseOption>, Refusal>
        requires { Nests self.now.levels (F.pre self.now.inner) (F.post self.now.inner) }
        ensures { Reads (repeat (spec.case_options (within self.now.levels)) tokens.old) result tokens.new }
    {
        let mut found = Items::new(self.alloc);
        for _turn in 0..tokens.turns() {
            match self.next_option(tokens)? {
                None => return Ok(found),
                Some(option) => {
                    let more = !tokens.sees(Kind::CloseBrace);
                    put(self.alloc, &mut found, option, more)?;
                }
            }
        }
        Err(tokens.refusal())
    }

    /// `case control { options }`
    #[tactic(auto, unfolding(crate::specs::Expressions::case_rule))]
    pub fn case_form(&self, tokens: &mut Cursor<'_>) -> Result<Form, Refusal>
        requires { Nests self.now.levels (F.pre self.now.inner) (F.post self.now.inner) }
        ensures { Reads (spec.case_rule (within self.now.levels) tokens.old) result tokens.new }
    {
        let control = Boxed::new(self.alloc, self.condition(tokens, Kind::Case)?)?;
        self.open(tokens, Kind::OpenBrace)?;
        let options = self.case_options(tokens)?;
        tokens.expect(Kind::CloseBrace)?;
        Ok(Form::Case(Case { control, options }))
    }

    /// The values of an option behind those that were found, up to `:`.
    #[tactic(auto, unfolding(crate::specs::Input::sees), using(crate::proofs::Turns::separated_turn, crate::proofs::Turns::separated_none))]
    fn values_from(
        &self,
        tokens: &mut Cursor<'_>,
        mut found: Items<Expr>,
    ) -> Result<Items<Expr>, Refusal>
        requires { Nests self.now.levels (F.pre self.now.inner) (F.post self.now.inner) }
        ensures { Reads (separated_from (is_at k.Colon) k.Comma (spec.whole (within self.now.levels) false false) (turns tokens.old) found tokens.old) result tokens.new }
    {
        for _turn in 0..tokens.turns() {
            if tokens.sees(Kind::Colon) {
                return Ok(found);
            }
            let x = self.whole(tokens, false, false)?;
            put(self.alloc, &mut found, x, tokens.sees(Kind::Comma))?;
            if !tokens.eat(Kind::Comma)? {
                return Ok(found);
            }
        }
        Err(tokens.refusal())
    }

    /// The values of an option.
    #[tactic(auto, unfolding(crate::specs::Input::separated_some))]
    fn values(&self, tokens: &mut Cursor<'_>) -> Result<Items<Expr>, Refusal>
        requires { Nests self.now.levels (F.pre self.now.inner) (F.post self.now.inner) }
        ensures { Reads (separated_some (is_at k.Colon) k.Comma (spec.whole (within self.now.levels) false false) tokens.old) result tokens.new }
    {
        let mut found = Items::new(self.alloc);
        let x = self.whole(tokens, false, false)?;
        put(self.alloc, &mut found, x, tokens.sees(Kind::Comma))?;
        if !tokens.eat(Kind::Comma)? {
            return Ok(found);
        }
        self.values_from(tokens, found)
    }

    /// `values: { statements }`
    #[tactic(auto, unfolding(crate::specs::Expressions::case_option))]
    pub fn case_option(&self, tokens: &mut Cursor<'_>) -> Result<CaseOption, Refusal>
        requires { Nests self.now.levels (F.pre self.now.inner) (F.post self.now.inner) }
        ensures { Reads (spec.case_option (within self.now.levels) tokens.old) result tokens.new }
    {
        let at = tokens.line();
        let values = self.values(tokens)?;
        tokens.expect(Kind::Colon)?;
        let block = self.block(tokens)?;
        Ok(CaseOption { values, block, at })
    }
}
