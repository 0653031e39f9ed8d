//! What stands in brackets.

ghost use Rattle.std.specs.Prelude.{[], true, false};
ghost use Rattle.pp_lexer.specs.declared.kind.Kind.TheVariants as k;
ghost use Rattle.pp_parser.specs.Expressions as spec;
ghost use Rattle.pp_parser.specs.Expressions.{is_at};
ghost use Rattle.pp_parser.specs.Inner.{whole_in, param_in};
ghost use Rattle.pp_parser.specs.Input.{Reads, turns, separated_from, separated_some};
ghost use Rattle.pp_parser.specs.Kinds.{is_bar};
ghost use Rattle.pp_parser.specs.Levels.{within};
ghost use Rattle.pp_parser.specs.Nests.{Nests};

use crate::cursor::Cursor;
use crate::inset::{Inset, InsetTree};
use crate::keys::doubled_key;
use crate::kinds::is_bar;
use crate::lists::put;
use crate::refusal::Refusal;
use crate::rules::Rules;
use pp_lexer::Kind;
use pp_tree::{Block, Expr, Form, Lambda, Pair, Param};
use pp_values::{Boxed, Items};
use std::alloc::Global;

impl<F: Fn(Global, &mut Cursor<'_>, usize, Inset) -> Result<InsetTree, Refusal>> Rules<F> {
    /// `{ statements }`
    #[tactic(auto, unfolding(crate::specs::Expressions::block))]
    pub fn block(&self, tokens: &mut Cursor<'_>) -> Result<Block, Refusal>
        requires { Nests self.now.levels (F.pre self.now.inner) (F.post self.now.inner) }
        ensures { Reads (spec.block (within self.now.levels) tokens.old) result tokens.new }
    {
        self.open(tokens, Kind::OpenBrace)?;
        let statements = self.statements_in(tokens)?;
        tokens.expect(Kind::CloseBrace)?;
        Ok(statements)
    }

    /// Expressions behind those that were found, with commas between them, up to this kind of token.
    #[tactic(auto, unfolding(crate::specs::Input::sees), using(crate::proofs::Turns::separated_turn, crate::proofs::Turns::separated_none))]
    fn wholes_from(
        &self,
        tokens: &mut Cursor<'_>,
        close: Kind,
        mut found: Items<Expr>,
    ) -> Result<Items<Expr>, Refusal>
        requires { Nests self.now.levels (F.pre self.now.inner) (F.post self.now.inner) }
        ensures { Reads (separated_from (is_at close) k.Comma (whole_in (within self.now.levels) false) (turns tokens.old) found tokens.old) result tokens.new }
    {
        for _turn in 0..tokens.turns() {
            if tokens.sees(close) {
                return Ok(found);
            }
            let x = self.whole_in(tokens, false)?;
            put(self.alloc, &mut found, x, tokens.sees(Kind::Comma))?;
            if !tokens.eat(Kind::Comma)? {
                return Ok(found);
            }
        }
        Err(tokens.refusal())
    }

    /// One expression or more.
    #[tactic(auto, unfolding(crate::specs::Input::separated_some))]
    fn wholes_some(&self, tokens: &mut Cursor<'_>, close: Kind) -> Result<Items<Expr>, Refusal>
        requires { Nests self.now.levels (F.pre self.now.inner) (F.post self.now.inner) }
        ensures { Reads (separated_some (is_at close) k.Comma (whole_in (within self.now.levels) false) tokens.old) result tokens.new }
    {
        let mut found = Items::new(self.alloc);
        let x = self.whole_in(tokens, false)?;
        put(self.alloc, &mut found, x, tokens.sees(Kind::Comma))?;
        if !tokens.eat(Kind::Comma)? {
            return Ok(found);
        }
        self.wholes_from(tokens, close, found)
    }

    /// `( args )`, where nothing may stand between.
    #[tactic(auto, unfolding(crate::specs::Expressions::arguments, crate::specs::Input::separated))]
    pub fn arguments(&self, tokens: &mut Cursor<'_>) -> Result<Items<Expr>, Refusal>
        requires { Nests self.now.levels (F.pre self.now.inner) (F.post self.now.inner) }
        ensures { Reads (spec.arguments (within self.now.levels) tokens.old) result tokens.new }
    {
        self.open(tokens, Kind::OpenParen)?;
        let args = self.wholes_from(tokens, Kind::CloseParen, Items::new(self.alloc))?;
        tokens.expect(Kind::CloseParen)?;
        Ok(args)
    }

    /// `( args )` or nothing.
    #[tactic(auto, unfolding(crate::specs::Expressions::optional_arguments))]
    pub fn optional_arguments(&self, tokens: &mut Cursor<'_>) -> Result<Items<Expr>, Refusal>
        requires { Nests self.now.levels (F.pre self.now.inner) (F.post self.now.inner) }
        ensures { Reads (spec.optional_arguments (within self.now.levels) tokens.old) result tokens.new }
    {
        match tokens.peek() {
            Some(Kind::OpenParen) => self.arguments(tokens),
            _ => Ok(Items::new(self.alloc)),
        }
    }

    /// `[ args ]` behind a value.
    #[tactic(auto, unfolding(crate::specs::Expressions::access))]
    pub fn access(&self, tokens: &mut Cursor<'_>) -> Result<Items<Expr>, Refusal>
        requires { Nests self.now.levels (F.pre self.now.inner) (F.post self.now.inner) }
        ensures { Reads (spec.access (within self.now.levels) tokens.old) result tokens.new }
    {
        self.open(tokens, Kind::TightBracket)?;
        let args = self.wholes_some(tokens, Kind::CloseBracket)?;
        tokens.expect(Kind::CloseBracket)?;
        Ok(args)
    }

    /// A list that begins with this kind of bracket.
    #[tactic(auto, unfolding(crate::specs::Expressions::list, crate::specs::Input::separated))]
    pub fn list(&self, tokens: &mut Cursor<'_>, bracket: Kind) -> Result<Form, Refusal>
        requires { Nests self.now.levels (F.pre self.now.inner) (F.post self.now.inner) }
        ensures { Reads (spec.list (within self.now.levels) bracket tokens.old) result tokens.new }
    {
        self.open(tokens, bracket)?;
        let members = self.wholes_from(tokens, Kind::CloseBracket, Items::new(self.alloc))?;
        tokens.expect(Kind::CloseBracket)?;
        Ok(Form::List(members))
    }

    /// `key => value`
    #[tactic(auto, unfolding(crate::specs::Expressions::pair_rule))]
    fn pair(&self, tokens: &mut Cursor<'_>) -> Result<Pair, Refusal>
        requires { Nests self.now.levels (F.pre self.now.inner) (F.post self.now.inner) }
        ensures { Reads (spec.pair_rule (within self.now.levels) tokens.old) result tokens.new }
    {
        let key = self.whole_in(tokens, false)?;
        tokens.expect(Kind::Arrow)?;
        let value = self.whole_in(tokens, false)?;
        Ok(Pair { key, value })
    }

    /// Pairs behind those that were found, with commas between them, up to `}`.
    #[tactic(auto, unfolding(crate::specs::Input::sees), using(crate::proofs::Turns::separated_turn, crate::proofs::Turns::separated_none))]
    fn pairs_from(
        &self,
        tokens: &mut Cursor<'_>,
        mut found: Items<Pair>,
    ) -> Result<Items<Pair>, Refusal>
        requires { Nests self.now.levels (F.pre self.now.inner) (F.post self.now.inner) }
        ensures { Reads (separated_from (is_at k.CloseBrace) k.Comma (spec.pair_rule (within self.now.levels)) (turns tokens.old) found tokens.old) result tokens.new }
    {
        for _turn in 0..tokens.turns() {
            if tokens.sees(Kind::CloseBrace) {
                return Ok(found);
            }
            let pair = self.pair(tokens)?;
            put(self.alloc, &mut found, pair, tokens.sees(Kind::Comma))?;
            if !tokens.eat(Kind::Comma)? {
                return Ok(found);
            }
        }
        Err(tokens.refusal())
    }

    /// One pair or more.
    #[tactic(auto, unfolding(crate::specs::Input::separated_some))]
    pub fn pairs_some(&self, tokens: &mut Cursor<'_>) -> Result<Items<Pair>, Refusal>
        requires { Nests self.now.levels (F.pre self.now.inner) (F.post self.now.inner) }
        ensures { Reads (separated_some (is_at k.CloseBrace) k.Comma (spec.pair_rule (within self.now.levels)) tokens.old) result tokens.new }
    {
        let mut found = Items::new(self.alloc);
        let pair = self.pair(tokens)?;
        put(self.alloc, &mut found, pair, tokens.sees(Kind::Comma))?;
        if !tokens.eat(Kind::Comma)? {
            return Ok(found);
        }
        self.pairs_from(tokens, found)
    }

    /// `{ key => value, .. }`
    #[tactic(auto, unfolding(crate::specs::Expressions::hash, crate::specs::Input::separated, crate::specs::Keys::noting))]
    pub fn hash(&self, tokens: &mut Cursor<'_>) -> Result<Form, Refusal>
        requires { Nests self.now.levels (F.pre self.now.inner) (F.post self.now.inner) }
        ensures { Reads (spec.hash (within self.now.levels) tokens.old) result tokens.new }
    {
        self.open(tokens, Kind::OpenBrace)?;
        let pairs = self.pairs_from(tokens, Items::new(self.alloc))?;
        tokens.expect(Kind::CloseBrace)?;
        tokens.note(doubled_key(self.alloc, pairs.as_slice())?);
        Ok(Form::Hash(pairs))
    }

    /// `( expression )`
    #[tactic(auto, unfolding(crate::specs::Expressions::parentheses))]
    pub fn parentheses(&self, tokens: &mut Cursor<'_>) -> Result<Form, Refusal>
        requires { Nests self.now.levels (F.pre self.now.inner) (F.post self.now.inner) }
        ensures { Reads (spec.parentheses (within self.now.levels) tokens.old) result tokens.new }
    {
        self.open(tokens, Kind::OpenParen)?;
        let x = self.whole_in(tokens, false)?;
        tokens.expect(Kind::CloseParen)?;
        Ok(Form::Parentheses(x))
    }

    /// The parameters of a lambda behind those that were found, up to a bar.
    #[tactic(auto, using(crate::proofs::Turns::separated_turn, crate::proofs::Turns::separated_none))]
    fn lambda_params_from(
        &self,
        tokens: &mut Cursor<'_>,
        mut found: Items<Param>,
    ) -> Result<Items<Param>, Refusal>
        requires { Nests self.now.levels (F.pre self.now.inner) (F.post self.now.inner) }
        ensures { Reads (separated_from is_bar k.Comma (param_in (within self.now.levels) true) (turns tokens.old) found tokens.old) result tokens.new }
    {
        for _turn in 0..tokens.turns() {
            if is_bar(tokens.peek()) {
                return Ok(found);
            }
            let param = self.param_in(tokens, true)?;
            put(self.alloc, &mut found, param, tokens.sees(Kind::Comma))?;
            if !tokens.eat(Kind::Comma)? {
                return Ok(found);
            }
        }
        Err(tokens.refusal())
    }

    /// The parameters between two bars, of which this kind of bar is the first, and the block.
    #[tactic(auto, unfolding(crate::specs::Expressions::lambda_from, crate::specs::Input::separated))]
    fn lambda_from(&self, tokens: &mut Cursor<'_>, bar: Kind) -> Result<Boxed<Lambda>, Refusal>
        requires { Nests self.now.levels (F.pre self.now.inner) (F.post self.now.inner) }
        ensures { Reads (spec.lambda_from (within self.now.levels) bar tokens.old) result tokens.new }
    {
        self.open(tokens, bar)?;
        let params = self.lambda_params_from(tokens, Items::new(self.alloc))?;
        tokens.expect_bar()?;
        let block = self.block(tokens)?;
        Ok(Boxed::new(self.alloc, Lambda { params, block })?)
    }

    /// A lambda or nothing. Within bars, the bar that `{` follows ends the parameters and begins no lambda.
    #[tactic(auto, unfolding(crate::specs::Expressions::optional_lambda))]
    pub fn optional_lambda(
        &self,
        tokens: &mut Cursor<'_>,
        bars: bool,
    ) -> Result<Option<Boxed<Lambda>>, Refusal>
        requires { Nests self.now.levels (F.pre self.now.inner) (F.post self.now.inner) }
        ensures { Reads (spec.optional_lambda (within self.now.levels) bars tokens.old) result tokens.new }
    {
        match tokens.peek() {
            Some(Kind::Bar) => Ok(Some(self.lambda_from(tokens, Kind::Bar)?)),
            Some(Kind::LastBar) => {
                if bars {
                    return Ok(None);
                }
                Ok(Some(self.lambda_from(tokens, Kind::LastBar)?))
            }
            _ => Ok(None),
        }
    }
}
