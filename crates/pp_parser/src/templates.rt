//! Templates.

ghost use Rattle.std.specs.Prelude.{Some, None, false};
ghost use Rattle.pp_parser.specs.Expressions.{param_rule};
ghost use Rattle.pp_parser.specs.Input.{Reads, repeat, separated_from, turns};
ghost use Rattle.pp_parser.specs.Kinds.{ends_params};
ghost use Rattle.pp_lexer.specs.declared.kind.Kind.TheVariants as k;
ghost use Rattle.pp_parser.specs.Levels.{within};
ghost use Rattle.pp_parser.specs.Nests.{Nests};
ghost use Rattle.pp_parser.specs.Templates as spec;

use crate::cursor::Cursor;
use crate::files::ends_file;
use crate::inset::{Inset, InsetTree};
use crate::kinds::ends_params;
use crate::lists::put;
use crate::refusal::Refusal;
use crate::rules::Rules;
use pp_lexer::Kind;
use pp_tree::{Block, Params, Statement, Template};
use pp_values::Items;
use std::alloc::Global;

impl<F: Fn(Global, &mut Cursor<'_>, usize, Inset) -> Result<InsetTree, Refusal>> Rules<F> {
    /// A text before the first tag, with at most one `;` behind it.
    #[tactic(auto, unfolding(crate::specs::Templates::leading_text))]
    fn leading_text(&self, tokens: &mut Cursor<'_>) -> Result<Statement, Refusal>
        ensures { Reads (spec.leading_text (within self.now.levels) tokens.old) result tokens.new }
    {
        let token = tokens.take()?;
        let text = token.text(self.alloc)?;
        tokens.eat(Kind::Semicolon)?;
        Ok(Statement::Emit(text))
    }

    /// The next text, or nothing where a tag comes next.
    #[tactic(auto, unfolding(crate::specs::Templates::leading))]
    fn leading(&self, tokens: &mut Cursor<'_>) -> Result<Option<Statement>, Refusal>
        ensures { Reads (spec.leading (within self.now.levels) tokens.old) result tokens.new }
    {
        match tokens.peek() {
            Some(Kind::RenderString) => Ok(Some(self.leading_text(tokens)?)),
            _ => Ok(None),
        }
    }

    /// The texts before the first tag.
    #[tactic(auto, unfolding(crate::specs::Input::repeat), using(crate::proofs::Turns::repeat_turn, crate::proofs::Turns::repeat_none))]
    fn leading_texts(&self, tokens: &mut Cursor<'_>) -> Result<Block, Refusal>
        ensures { Reads (repeat (spec.leading (within self.now.levels)) tokens.old) result tokens.new }
    {
        let mut found = Items::new(self.alloc);
        for _turn in 0..tokens.turns() {
            match self.leading(tokens)? {
                None => return Ok(found),
                Some(text) => {
                    put(self.alloc, &mut found, text, true)?;
                }
            }
        }
        Err(tokens.refusal())
    }

    /// Parameters up to a bar that may end them, behind those that were found.
    #[tactic(auto, using(crate::proofs::Turns::separated_turn, crate::proofs::Turns::separated_none))]
    fn template_params_from(
        &self,
        tokens: &mut Cursor<'_>,
        mut found: Params,
    ) -> Result<Params, Refusal>
        requires { Nests self.now.levels (F.pre self.now.inner) (F.post self.now.inner) }
        ensures { Reads (separated_from ends_params k.Comma (param_rule (within self.now.levels) false) (turns tokens.old) found tokens.old) result tokens.new }
    {
        for _turn in 0..tokens.turns() {
            if ends_params(tokens.peek()) {
                return Ok(found);
            }
            let param = self.param(tokens, false)?;
            put(self.alloc, &mut found, param, tokens.sees(Kind::Comma))?;
            if !tokens.eat(Kind::Comma)? {
                return Ok(found);
            }
        }
        Err(tokens.refusal())
    }

    /// `| params |` and the end of their tag.
    #[tactic(auto, unfolding(crate::specs::Templates::template_params, crate::specs::Input::separated))]
    fn template_params(&self, tokens: &mut Cursor<'_>) -> Result<Params, Refusal>
        requires { Nests self.now.levels (F.pre self.now.inner) (F.post self.now.inner) }
        ensures { Reads (spec.template_params (within self.now.levels) tokens.old) result tokens.new }
    {
        tokens.expect(Kind::ParamsBegin)?;
        let found = self.template_params_from(tokens, Items::new(self.alloc))?;
        tokens.expect_params_end()?;
        tokens.expect(Kind::TagEnd)?;
        Ok(found)
    }

    /// The parameters of a template, where its first tag has any.
    #[tactic(auto, unfolding(crate::specs::Templates::optional_template_params))]
    fn optional_template_params(&self, tokens: &mut Cursor<'_>) -> Result<Option<Params>, Refusal>
        requires { Nests self.now.levels (F.pre self.now.inner) (F.post self.now.inner) }
        ensures { Reads (spec.optional_template_params (within self.now.levels) tokens.old) result tokens.new }
    {
        match tokens.peek() {
            Some(Kind::ParamsBegin) => Ok(Some(self.template_params(tokens)?)),
            _ => Ok(None),
        }
    }

    /// Statements behind these up to the end, each with at most one `;` behind it.
    #[tactic(auto, using(crate::proofs::Loops::rest_turn, crate::proofs::Loops::rest_none), unfolding(crate::specs::Templates::rest_of))]
    fn rest_of(&self, tokens: &mut Cursor<'_>, mut found: Block) -> Result<Block, Refusal>
        requires { Nests self.now.levels (F.pre self.now.inner) (F.post self.now.inner) }
        ensures { Reads (spec.rest_of (within self.now.levels) found tokens.old) result tokens.new }
    {
        let mut pending = None;
        for _turn in 0..tokens.turns() {
            if ends_file(&pending, tokens.peek()) {
                return Ok(found);
            }
            let (statement, next) = self.statement(tokens, pending)?;
            put(self.alloc, &mut found, statement, true)?;
            pending = next;
            tokens.eat(Kind::Semicolon)?;
        }
        Err(tokens.refusal())
    }

    /// A template up to its end: texts, then parameters where the first tag has any, then statements.
    #[tactic(auto, unfolding(crate::specs::Templates::template))]
    pub fn template(&self, tokens: &mut Cursor<'_>) -> Result<Template, Refusal>
        requires { Nests self.now.levels (F.pre self.now.inner) (F.post self.now.inner) }
        ensures { Reads (spec.template (within self.now.levels) tokens.old) result tokens.new }
    {
        let texts = self.leading_texts(tokens)?;
        let params = self.optional_template_params(tokens)?;
        let block = self.rest_of(tokens, texts)?;
        Ok(Template { params, block })
    }
}
