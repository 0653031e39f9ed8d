//! Attributes of resources.

ghost use Rattle.pp_lexer.specs.declared.kind.Kind.TheVariants as k;
ghost use Rattle.pp_parser.specs.Expressions.{is_at};
ghost use Rattle.pp_parser.specs.Input.{Reads, separated_from, turns};
ghost use Rattle.pp_parser.specs.Levels.{within};
ghost use Rattle.pp_parser.specs.Nests.{Nests};
ghost use Rattle.pp_parser.specs.Statements as spec;

use crate::cursor::Cursor;
use crate::inset::{Inset, InsetTree};
use crate::lists::put;
use crate::refusal::Refusal;
use crate::rules::Rules;
use pp_lexer::Kind;
use pp_tree::{Attribute, Attributes, Setting, Splat};
use pp_values::Items;
use std::alloc::Global;

impl<F: Fn(Global, &mut Cursor<'_>, usize, Inset) -> Result<InsetTree, Refusal>> Rules<F> {
    /// `=>`, or `+>` where it may stand: whether it appends.
    #[tactic(auto, unfolding(crate::specs::Statements::assigns))]
    fn assigns(&self, tokens: &mut Cursor<'_>, may_append: bool) -> Result<bool, Refusal>
        ensures { Reads (spec.assigns (within self.now.levels) may_append tokens.old) result tokens.new }
    {
        match tokens.peek() {
            Some(Kind::Arrow) => {
                tokens.take()?;
                Ok(false)
            }
            Some(Kind::PlusArrow) if may_append => {
                tokens.take()?;
                Ok(true)
            }
            _ => Err(tokens.refusal()),
        }
    }

    /// `name => value`
    #[tactic(auto, unfolding(crate::specs::Statements::setting_rule))]
    fn setting(&self, tokens: &mut Cursor<'_>, may_append: bool) -> Result<Attribute, Refusal>
        requires { Nests self.now.levels (F.pre self.now.inner) (F.post self.now.inner) }
        ensures { Reads (spec.setting_rule (within self.now.levels) may_append tokens.old) result tokens.new }
    {
        let word = tokens.expect_word()?;
        let append = self.assigns(tokens, may_append)?;
        let value = self.whole_in(tokens, false)?;
        Ok(Attribute::Set(Setting {
            name: word.text(self.alloc)?,
            append,
            value,
            at: word.line(),
        }))
    }

    /// `* => value`
    #[tactic(auto, unfolding(crate::specs::Statements::splat_rule))]
    fn splat(&self, tokens: &mut Cursor<'_>) -> Result<Attribute, Refusal>
        requires { Nests self.now.levels (F.pre self.now.inner) (F.post self.now.inner) }
        ensures { Reads (spec.splat_rule (within self.now.levels) tokens.old) result tokens.new }
    {
        let star = tokens.expect(Kind::Star)?;
        tokens.expect(Kind::Arrow)?;
        let value = self.whole_in(tokens, false)?;
        Ok(Attribute::Splat(Splat {
            value,
            at: star.line(),
        }))
    }

    #[tactic(auto, unfolding(crate::specs::Statements::attribute))]
    pub fn attribute(&self, tokens: &mut Cursor<'_>, may_append: bool) -> Result<Attribute, Refusal>
        requires { Nests self.now.levels (F.pre self.now.inner) (F.post self.now.inner) }
        ensures { Reads (spec.attribute (within self.now.levels) may_append tokens.old) result tokens.new }
    {
        match tokens.peek() {
            Some(Kind::Star) => self.splat(tokens),
            _ => self.setting(tokens, may_append),
        }
    }

    /// `{ attributes }`
    #[tactic(auto, unfolding(crate::specs::Statements::attributes, crate::specs::Input::separated))]
    pub fn attributes(
        &self,
        tokens: &mut Cursor<'_>,
        may_append: bool,
    ) -> Result<Attributes, Refusal>
        requires { Nests self.now.levels (F.pre self.now.inner) (F.post self.now.inner) }
        ensures { Reads (spec.attributes (within self.now.levels) may_append tokens.old) result tokens.new }
    {
        self.open(tokens, Kind::OpenBrace)?;
        let found = self.attributes_from(tokens, may_append, Items::new(self.alloc))?;
        tokens.expect(Kind::CloseBrace)?;
        Ok(found)
    }

    /// Attributes up to the brace that closes them, behind those that were found.
    #[tactic(auto, using(crate::proofs::Turns::separated_turn, crate::proofs::Turns::separated_none), unfolding(crate::specs::Input::sees))]
    fn attributes_from(
        &self,
        tokens: &mut Cursor<'_>,
        may_append: bool,
        mut found: Attributes,
    ) -> Result<Attributes, Refusal>
        requires { Nests self.now.levels (F.pre self.now.inner) (F.post self.now.inner) }
        ensures { Reads (separated_from (is_at k.CloseBrace) k.Comma (spec.attribute (within self.now.levels) may_append) (turns tokens.old) found tokens.old) result tokens.new }
    {
        for _turn in 0..tokens.turns() {
            if tokens.sees(Kind::CloseBrace) {
                return Ok(found);
            }
            let attribute = self.attribute(tokens, may_append)?;
            put(self.alloc, &mut found, attribute, tokens.sees(Kind::Comma))?;
            if !tokens.eat(Kind::Comma)? {
                return Ok(found);
            }
        }
        Err(tokens.refusal())
    }
}
