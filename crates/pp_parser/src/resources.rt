//! Resources.

ghost use Rattle.pp_lexer.specs.declared.kind.Kind.TheVariants as k;
ghost use Rattle.pp_parser.specs.Expressions.{is_at};
ghost use Rattle.pp_parser.specs.Input.{Reads, Takes, expect_any, separated_from, separated_some, turns};
ghost use Rattle.pp_parser.specs.Kinds.{ends_body};
ghost use Rattle.pp_parser.specs.Levels.{within};
ghost use Rattle.pp_parser.specs.Nests.{Nests};
ghost use Rattle.pp_parser.specs.Statements as spec;
ghost use Rattle.std.specs.Prelude.{◌≡◌, false};

use crate::cursor::Cursor;
use crate::inset::{Inset, InsetTree};
use crate::kinds::ends_body;
use crate::lists::put;
use crate::refusal::Refusal;
use crate::rules::Rules;
use pp_lexer::{Kind, Token};
use pp_tree::{Attributes, Body, Expr, Operand, Resource, ResourceForm};
use pp_values::{Boxed, Items, Text};
use std::alloc::Global;

/// A name or the word `class`, which may stand before the braces of a resource.
pub fn names_resource(next: Option<Kind>) -> bool
    ensures { result ≡ spec.names_resource next }
{
    match next {
        Some(Kind::Class | Kind::Name | Kind::StatementFunction) => true,
        _ => false,
    }
}

/// The name of a kind of resource.
#[tactic(auto, unfolding(crate::specs::Input::expect_any))]
fn resource_name<'a>(tokens: &mut Cursor<'a>) -> Result<Token<'a>, Refusal>
    ensures { Takes (expect_any spec.names_resource tokens.old) result tokens.new }
{
    if !names_resource(tokens.peek()) {
        return Err(tokens.refusal());
    }
    tokens.take()
}

impl<F: Fn(Global, &mut Cursor<'_>, usize, Inset) -> Result<InsetTree, Refusal>> Rules<F> {
    /// Attributes up to the end of a body, behind those that were found.
    #[tactic(auto, using(crate::proofs::Turns::separated_turn, crate::proofs::Turns::separated_none))]
    fn body_attributes_from(
        &self,
        tokens: &mut Cursor<'_>,
        mut found: Attributes,
    ) -> Result<Attributes, Refusal>
        requires { Nests self.now.levels (F.pre self.now.inner) (F.post self.now.inner) }
        ensures { Reads (separated_from ends_body k.Comma (spec.attribute (within self.now.levels) false) (turns tokens.old) found tokens.old) result tokens.new }
    {
        for _turn in 0..tokens.turns() {
            if ends_body(tokens.peek()) {
                return Ok(found);
            }
            let attribute = self.attribute(tokens, false)?;
            put(self.alloc, &mut found, attribute, tokens.sees(Kind::Comma))?;
            if !tokens.eat(Kind::Comma)? {
                return Ok(found);
            }
        }
        Err(tokens.refusal())
    }

    /// `title: attributes`
    #[tactic(auto, unfolding(crate::specs::Statements::body, crate::specs::Input::separated))]
    pub fn body(&self, tokens: &mut Cursor<'_>) -> Result<Body, Refusal>
        requires { Nests self.now.levels (F.pre self.now.inner) (F.post self.now.inner) }
        ensures { Reads (spec.body (within self.now.levels) tokens.old) result tokens.new }
    {
        let at = tokens.line();
        let title = self.whole_in(tokens, false)?;
        tokens.expect(Kind::Colon)?;
        let attributes = self.body_attributes_from(tokens, Items::new(self.alloc))?;
        Ok(Body {
            title,
            attributes,
            at,
        })
    }

    /// Bodies up to the brace that closes them, behind those that were found.
    #[tactic(auto, using(crate::proofs::Turns::separated_turn, crate::proofs::Turns::separated_none), unfolding(crate::specs::Input::sees))]
    fn bodies_from(
        &self,
        tokens: &mut Cursor<'_>,
        mut found: Items<Body>,
    ) -> Result<Items<Body>, Refusal>
        requires { Nests self.now.levels (F.pre self.now.inner) (F.post self.now.inner) }
        ensures { Reads (separated_from (is_at k.CloseBrace) k.Semicolon (spec.body (within self.now.levels)) (turns tokens.old) found tokens.old) result tokens.new }
    {
        for _turn in 0..tokens.turns() {
            if tokens.sees(Kind::CloseBrace) {
                return Ok(found);
            }
            let body = self.body(tokens)?;
            put(self.alloc, &mut found, body, tokens.sees(Kind::Semicolon))?;
            if !tokens.eat(Kind::Semicolon)? {
                return Ok(found);
            }
        }
        Err(tokens.refusal())
    }

    /// `body; body`, one or more
    #[tactic(auto, unfolding(crate::specs::Input::separated_some))]
    fn bodies(&self, tokens: &mut Cursor<'_>) -> Result<Items<Body>, Refusal>
        requires { Nests self.now.levels (F.pre self.now.inner) (F.post self.now.inner) }
        ensures { Reads (separated_some (is_at k.CloseBrace) k.Semicolon (spec.body (within self.now.levels)) tokens.old) result tokens.new }
    {
        let mut found = Items::new(self.alloc);
        let body = self.body(tokens)?;
        put(self.alloc, &mut found, body, tokens.sees(Kind::Semicolon))?;
        if !tokens.eat(Kind::Semicolon)? {
            return Ok(found);
        }
        self.bodies_from(tokens, found)
    }

    /// Behind the kind: `{ body; body }`
    #[tactic(auto, unfolding(crate::specs::Statements::resource))]
    pub fn resource(
        &self,
        tokens: &mut Cursor<'_>,
        form: ResourceForm,
        kind: Text,
        at: u32,
    ) -> Result<Operand, Refusal>
        requires { Nests self.now.levels (F.pre self.now.inner) (F.post self.now.inner) }
        ensures { Reads (spec.resource (within self.now.levels) form kind at tokens.old) result tokens.new }
    {
        self.open(tokens, Kind::OpenBrace)?;
        let bodies = self.bodies(tokens)?;
        tokens.expect(Kind::CloseBrace)?;
        let resource = Resource {
            form,
            kind,
            bodies,
            at,
        };
        Ok(Operand::Resource(Boxed::new(self.alloc, resource)?))
    }

    /// `@` or `@@` and a resource
    #[tactic(auto, unfolding(crate::specs::Statements::marked))]
    pub fn marked(&self, tokens: &mut Cursor<'_>, form: ResourceForm) -> Result<Operand, Refusal>
        requires { Nests self.now.levels (F.pre self.now.inner) (F.post self.now.inner) }
        ensures { Reads (spec.marked (within self.now.levels) form tokens.old) result tokens.new }
    {
        let mark = tokens.take()?;
        let word = resource_name(tokens)?;
        let kind = word.text(self.alloc)?;
        self.resource(tokens, form, kind, mark.line())
    }
}
