//! The operands of a chain, and chains.

ghost use Rattle.pp_parser.specs.Input.{Reads, repeat_from, turns};
ghost use Rattle.pp_parser.specs.Levels.{within};
ghost use Rattle.pp_parser.specs.Nests.{Nests};
ghost use Rattle.pp_parser.specs.Statements as spec;
ghost use Rattle.std.specs.Prelude.{◌≡◌, IfOk};

use crate::cursor::Cursor;
use crate::inset::{Inset, InsetTree};
use crate::lists::put;
use crate::operators::LOOSEST;
use crate::refusal::Refusal;
use crate::rules::Rules;
use crate::started::Started;
use pp_lexer::{Kind, Token};
use pp_tree::{Arrow, Chain, Expr, Form, Link, Name, Operand, Postfix, ResourceForm, Statement};
use pp_values::{Items, Memory};
use std::alloc::Global;

/// A statement, and the name behind it that begins the next one.
pub type Read = (Statement, Option<Name>);

/// What an arrow between operands is.
fn arrow_at(next: Option<Kind>) -> Option<Arrow>
    ensures { result ≡ spec.arrow_at next }
{
    match next {
        Some(Kind::InEdge) => Some(Arrow::InEdge),
        Some(Kind::InEdgeSub) => Some(Arrow::InEdgeSub),
        Some(Kind::OutEdge) => Some(Arrow::OutEdge),
        Some(Kind::OutEdgeSub) => Some(Arrow::OutEdgeSub),
        _ => None,
    }
}

/// A name and where it stands.
pub fn name_of(alloc: Global, token: &Token<'_>) -> Result<Name, Memory>
    ensures { IfOk result (λ name. name ≡ spec.name_of token.now) }
{
    Ok(Name {
        text: token.text(alloc)?,
        at: token.line(),
    })
}

/// The next token as a name.
pub fn taken_name(alloc: Global, tokens: &mut Cursor<'_>) -> Result<Name, Refusal>
    ensures { Reads (spec.taken_name tokens.old) result tokens.new }
{
    let token = tokens.take()?;
    Ok(name_of(alloc, &token)?)
}

impl<F: Fn(Global, &mut Cursor<'_>, usize, Inset) -> Result<InsetTree, Refusal>> Rules<F> {
    /// An expression whose value was begun already.
    #[tactic(auto, unfolding(crate::specs::Statements::expression_from))]
    pub fn expression_from(
        &self,
        tokens: &mut Cursor<'_>,
        base: Expr,
        postfixes: Items<Postfix>,
    ) -> Result<Operand, Refusal>
        requires { Nests self.now.levels (F.pre self.now.inner) (F.post self.now.inner) }
        ensures { Reads (spec.expression_from (within self.now.levels) base postfixes tokens.old) result tokens.new }
    {
        let start = Some(Started { base, postfixes });
        Ok(Operand::Expr(self.chain(tokens, false, LOOSEST, start)?))
    }

    /// Behind a name: a resource where `{` follows, else an expression.
    #[tactic(auto, unfolding(crate::specs::Statements::behind_name))]
    pub fn behind_name(&self, tokens: &mut Cursor<'_>, name: Name) -> Result<Operand, Refusal>
        requires { Nests self.now.levels (F.pre self.now.inner) (F.post self.now.inner) }
        ensures { Reads (spec.behind_name (within self.now.levels) name tokens.old) result tokens.new }
    {
        let Name { text, at } = name;
        match tokens.peek() {
            Some(Kind::OpenBrace) => self.resource(tokens, ResourceForm::Plain, text, at),
            _ => {
                let form = self.call_or_name(tokens, false, text)?;
                let first = Expr::new(self.alloc, at, form)?;
                self.expression_from(tokens, first, Items::new(self.alloc))
            }
        }
    }

    /// Behind the name of a type: a collector or an expression.
    #[tactic(auto, unfolding(crate::specs::Statements::behind_type))]
    pub fn behind_type(&self, tokens: &mut Cursor<'_>, kind: Name) -> Result<Operand, Refusal>
        requires { Nests self.now.levels (F.pre self.now.inner) (F.post self.now.inner) }
        ensures { Reads (spec.behind_type (within self.now.levels) kind tokens.old) result tokens.new }
    {
        let Name { text, at } = kind;
        match tokens.peek() {
            Some(Kind::OpenCollector) => {
                self.collector(
                    tokens,
                    false,
                    Kind::OpenCollector,
                    Kind::CloseCollector,
                    text,
                    at,
                )
            }
            Some(Kind::OpenExported) => {
                self.collector(
                    tokens,
                    true,
                    Kind::OpenExported,
                    Kind::CloseExported,
                    text,
                    at,
                )
            }
            _ => {
                let form = Form::Type(text);
                let first = Expr::new(self.alloc, at, form)?;
                self.expression_from(tokens, first, Items::new(self.alloc))
            }
        }
    }

    /// The word `class` and its braces.
    fn class_resource(&self, tokens: &mut Cursor<'_>) -> Result<Operand, Refusal>
        requires { Nests self.now.levels (F.pre self.now.inner) (F.post self.now.inner) }
        ensures { Reads (spec.class_resource (within self.now.levels) tokens.old) result tokens.new }
    {
        let word = tokens.take()?;
        let kind = word.text(self.alloc)?;
        self.resource(tokens, ResourceForm::Plain, kind, word.line())
    }

    /// An operand of a chain.
    #[tactic(auto, unfolding(crate::specs::Statements::operand_rule))]
    pub fn chain_operand(&self, tokens: &mut Cursor<'_>) -> Result<Operand, Refusal>
        requires { Nests self.now.levels (F.pre self.now.inner) (F.post self.now.inner) }
        ensures { Reads (spec.operand_rule (within self.now.levels) tokens.old) result tokens.new }
    {
        match tokens.peek() {
            Some(Kind::At) => self.marked(tokens, ResourceForm::Virtual),
            Some(Kind::AtAt) => self.marked(tokens, ResourceForm::Exported),
            Some(Kind::Class) => self.class_resource(tokens),
            Some(Kind::Name | Kind::StatementFunction) => {
                let name = taken_name(self.alloc, tokens)?;
                self.behind_name(tokens, name)
            }
            Some(Kind::Type) => {
                let kind = taken_name(self.alloc, tokens)?;
                self.behind_type(tokens, kind)
            }
            _ => Ok(Operand::Expr(self.whole(tokens, false, false)?)),
        }
    }

    /// An arrow and its operand, or nothing.
    #[tactic(auto, unfolding(crate::specs::Statements::link_rule))]
    fn link(&self, tokens: &mut Cursor<'_>) -> Result<Option<Link>, Refusal>
        requires { Nests self.now.levels (F.pre self.now.inner) (F.post self.now.inner) }
        ensures { Reads (spec.link_rule (within self.now.levels) tokens.old) result tokens.new }
    {
        let Some(arrow) = arrow_at(tokens.peek()) else {
            return Ok(None);
        };
        tokens.take()?;
        let operand = self.chain_operand(tokens)?;
        Ok(Some(Link { arrow, operand }))
    }

    /// Links, behind those that were found.
    #[tactic(auto, using(crate::proofs::Turns::repeat_turn, crate::proofs::Turns::repeat_none))]
    fn links_from(
        &self,
        tokens: &mut Cursor<'_>,
        mut found: Items<Link>,
    ) -> Result<Items<Link>, Refusal>
        requires { Nests self.now.levels (F.pre self.now.inner) (F.post self.now.inner) }
        ensures { Reads (repeat_from (spec.link_rule (within self.now.levels)) (turns tokens.old) found tokens.old) result tokens.new }
    {
        for _turn in 0..tokens.turns() {
            let Some(link) = self.link(tokens)? else {
                return Ok(found);
            };
            let more = arrow_at(tokens.peek()).is_some();
            put(self.alloc, &mut found, link, more)?;
        }
        Err(tokens.refusal())
    }

    /// Behind the first operand of a chain.
    #[tactic(auto, unfolding(crate::specs::Statements::chain_from, crate::specs::Input::repeat))]
    pub fn chain_from(
        &self,
        tokens: &mut Cursor<'_>,
        at: u32,
        first: Operand,
    ) -> Result<Read, Refusal>
        requires { Nests self.now.levels (F.pre self.now.inner) (F.post self.now.inner) }
        ensures { Reads (spec.chain_from (within self.now.levels) at first tokens.old) result tokens.new }
    {
        let links = self.links_from(tokens, Items::new(self.alloc))?;
        let chain = Chain { first, links, at };
        Ok((Statement::Chain(chain), None))
    }
}
