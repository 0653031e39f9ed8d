//! Values, and what follows them.

ghost use Rattle.std.specs.Prelude.{◌≡◌, IfOk};
ghost use Rattle.pp_parser.specs.Expressions as spec;
ghost use Rattle.pp_parser.specs.Input.{Reads, kind, turns, repeat_from};
ghost use Rattle.pp_parser.specs.Levels.{within};
ghost use Rattle.pp_parser.specs.Nests.{Nests};

use crate::cursor::Cursor;
use crate::inset::{Inset, InsetTree};
use crate::kinds::begins_postfix;
use crate::lists::put;
use crate::refusal::Refusal;
use crate::rules::Rules;
use crate::started::Started;
use pp_lexer::Kind;
use pp_tree::{Call, Expr, Form, Postfix};
use pp_values::{Boxed, Items, Memory};
use std::alloc::Global;

/// A value and what followed it.
fn postfixed(alloc: Global, base: Expr, postfixes: Items<Postfix>) -> Result<Expr, Memory>
    ensures { IfOk result (λ x. x ≡ spec.postfixed base postfixes) }
{
    if postfixes.is_empty() {
        return Ok(base);
    }
    let at = base.at;
    let form = Form::Postfix(Boxed::new(alloc, base)?, postfixes);
    Expr::new(alloc, at, form)
}

impl<F: Fn(Global, &mut Cursor<'_>, usize, Inset) -> Result<InsetTree, Refusal>> Rules<F> {
    /// What a value is, by the token that begins it.
    fn form(&self, tokens: &mut Cursor<'_>, bars: bool) -> Result<Form, Refusal>
        requires { Nests self.now.levels (F.pre self.now.inner) (F.post self.now.inner) }
        ensures { Reads (spec.primary_by (within self.now.levels) bars (kind tokens.old) tokens.old) result tokens.new }
    {
        match tokens.peek() {
            Some(Kind::Name | Kind::StatementFunction) => self.named(tokens, bars),
            Some(Kind::Type) => Ok(Form::Type(tokens.take()?.text(self.alloc)?)),
            Some(Kind::Variable | Kind::QualifiedVariable) => {
                Ok(Form::Variable(tokens.take()?.text(self.alloc)?))
            }
            Some(Kind::Number) => Ok(Form::Number(tokens.take()?.number())),
            Some(Kind::Text) => Ok(Form::Text(tokens.take()?.text(self.alloc)?)),
            Some(Kind::TextBegin) => self.quoted(tokens),
            Some(Kind::True) => {
                tokens.take()?;
                Ok(Form::Flag(true))
            }
            Some(Kind::False) => {
                tokens.take()?;
                Ok(Form::Flag(false))
            }
            Some(Kind::Undef) => {
                tokens.take()?;
                Ok(Form::Undef)
            }
            Some(Kind::Default) => {
                tokens.take()?;
                Ok(Form::Default)
            }
            Some(Kind::TightBracket) => self.list(tokens, Kind::TightBracket),
            Some(Kind::OpenBracket) => self.list(tokens, Kind::OpenBracket),
            Some(Kind::OpenBrace) => self.hash(tokens),
            Some(Kind::OpenParen) => self.parentheses(tokens),
            Some(Kind::If) => self.if_form(tokens),
            Some(Kind::Unless) => self.unless_form(tokens),
            Some(Kind::Case) => self.case_form(tokens),
            _ => Err(tokens.refusal()),
        }
    }

    /// `.name(args) lambda`
    #[tactic(auto, unfolding(crate::specs::Expressions::method))]
    fn method(&self, tokens: &mut Cursor<'_>, bars: bool) -> Result<Postfix, Refusal>
        requires { Nests self.now.levels (F.pre self.now.inner) (F.post self.now.inner) }
        ensures { Reads (spec.method (within self.now.levels) bars tokens.old) result tokens.new }
    {
        tokens.expect(Kind::Dot)?;
        let name = tokens.expect_name()?;
        let args = self.optional_arguments(tokens)?;
        let lambda = self.optional_lambda(tokens, bars)?;
        let call = Call {
            function: name.text(self.alloc)?,
            args,
            lambda,
        };
        Ok(Postfix::Method(Boxed::new(self.alloc, call)?))
    }

    /// `? { options }`
    #[tactic(auto, unfolding(crate::specs::Expressions::selector))]
    fn selector(&self, tokens: &mut Cursor<'_>) -> Result<Postfix, Refusal>
        requires { Nests self.now.levels (F.pre self.now.inner) (F.post self.now.inner) }
        ensures { Reads (spec.selector (within self.now.levels) tokens.old) result tokens.new }
    {
        tokens.expect(Kind::Question)?;
        self.open(tokens, Kind::OpenBrace)?;
        let options = self.pairs_some(tokens)?;
        tokens.expect(Kind::CloseBrace)?;
        Ok(Postfix::Select(options))
    }

    /// What follows a value, or nothing.
    #[tactic(auto, unfolding(crate::specs::Expressions::postfix_rule))]
    fn postfix(&self, tokens: &mut Cursor<'_>, bars: bool) -> Result<Option<Postfix>, Refusal>
        requires { Nests self.now.levels (F.pre self.now.inner) (F.post self.now.inner) }
        ensures { Reads (spec.postfix_rule (within self.now.levels) bars tokens.old) result tokens.new }
    {
        match tokens.peek() {
            Some(Kind::TightBracket) => {
                let args = self.access(tokens)?;
                Ok(Some(Postfix::Access(args)))
            }
            Some(Kind::Dot) => Ok(Some(self.method(tokens, bars)?)),
            Some(Kind::Question) => Ok(Some(self.selector(tokens)?)),
            _ => Ok(None),
        }
    }

    /// What follows a value, behind what was found.
    #[tactic(auto, using(crate::proofs::Turns::repeat_turn, crate::proofs::Turns::repeat_none))]
    fn postfixes_from(
        &self,
        tokens: &mut Cursor<'_>,
        bars: bool,
        mut found: Items<Postfix>,
    ) -> Result<Items<Postfix>, Refusal>
        requires { Nests self.now.levels (F.pre self.now.inner) (F.post self.now.inner) }
        ensures { Reads (repeat_from (spec.postfix_rule (within self.now.levels) bars) (turns tokens.old) found tokens.old) result tokens.new }
    {
        for _turn in 0..tokens.turns() {
            match self.postfix(tokens, bars)? {
                None => return Ok(found),
                Some(postfix) => {
                    let more = begins_postfix(tokens.peek());
                    put(self.alloc, &mut found, postfix, more)?;
                }
            }
        }
        Err(tokens.refusal())
    }

    /// A value that was begun, and all that follows it, turn by turn.
    #[tactic(auto, using(crate::proofs::Behind::postfixes_behind))]
    fn all_postfixes(
        &self,
        tokens: &mut Cursor<'_>,
        bars: bool,
        start: Started,
    ) -> Result<Expr, Refusal>
        requires { Nests self.now.levels (F.pre self.now.inner) (F.post self.now.inner) }
        ensures { Reads (spec.postfixes (within self.now.levels) bars start tokens.old) result tokens.new }
    {
        let Started { base, postfixes } = start;
        let found = self.postfixes_from(tokens, bars, postfixes)?;
        Ok(postfixed(self.alloc, base, found)?)
    }

    /// A value that was begun, and all that follows it. Mostly nothing does.
    #[tactic(auto, using(crate::proofs::Behind::postfixes_none))]
    pub fn postfixes(
        &self,
        tokens: &mut Cursor<'_>,
        bars: bool,
        start: Started,
    ) -> Result<Expr, Refusal>
        requires { Nests self.now.levels (F.pre self.now.inner) (F.post self.now.inner) }
        ensures { Reads (spec.postfixes (within self.now.levels) bars start tokens.old) result tokens.new }
    {
        if start.postfixes.is_empty() && !begins_postfix(tokens.peek()) {
            return Ok(start.base);
        }
        self.all_postfixes(tokens, bars, start)
    }

    /// A value, and all that follows it.
    #[tactic(auto, unfolding(crate::specs::Expressions::value, crate::specs::Expressions::primary), using(crate::proofs::Behind::postfixes_none))]
    pub fn value(&self, tokens: &mut Cursor<'_>, bars: bool) -> Result<Expr, Refusal>
        requires { Nests self.now.levels (F.pre self.now.inner) (F.post self.now.inner) }
        ensures { Reads (spec.value (within self.now.levels) bars tokens.old) result tokens.new }
    {
        let at = tokens.line();
        let form = self.form(tokens, bars)?;
        let base = Expr::new(self.alloc, at, form)?;
        if !begins_postfix(tokens.peek()) {
            return Ok(base);
        }
        let start = Started {
            base,
            postfixes: Items::new(self.alloc),
        };
        self.postfixes(tokens, bars, start)
    }
}
