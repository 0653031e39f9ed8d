//! Classes, defines, functions and nodes.

ghost use Rattle.pp_lexer.specs.declared.kind.Kind.TheVariants as k;
ghost use Rattle.pp_parser.specs.Definitions as spec;
ghost use Rattle.pp_parser.specs.Expressions.{is_at};
ghost use Rattle.pp_parser.specs.Inner.{param_in};
ghost use Rattle.pp_parser.specs.Input.{Reads, separated_from, turns};
ghost use Rattle.pp_parser.specs.Levels.{within};
ghost use Rattle.pp_parser.specs.Nests.{Nests};
ghost use Rattle.std.specs.Prelude.{◌≡◌, IfOk, false};

use crate::cursor::Cursor;
use crate::inset::{Inset, InsetTree};
use crate::lists::put;
use crate::operands::{name_of, taken_name};
use crate::refusal::Refusal;
use crate::rules::Rules;
use pp_lexer::Kind;
use pp_tree::{
    Args, Class, Define, Definition, Expr, Form, Function, Name, Node, NodeName, Params, Postfix,
};
use pp_values::{Boxed, Items, Memory, Text};
use std::alloc::Global;

/// `default` as a text is the word `default`.
fn node_name(text: Text) -> Option<Text>
    ensures { result ≡ spec.node_name text }
{
    if text.is("default") { None } else { Some(text) }
}

/// A type with arguments.
fn applied_type(alloc: Global, kind: Name, args: Args) -> Result<Expr, Memory>
    ensures { IfOk result (λ x. x ≡ spec.applied_type kind args) }
{
    let Name { text, at } = kind;
    let mut postfixes = Items::new(alloc);
    put(alloc, &mut postfixes, Postfix::Access(args), false)?;
    let bare = Expr::new(alloc, at, Form::Type(text))?;
    let form = Form::Postfix(Boxed::new(alloc, bare)?, postfixes);
    Expr::new(alloc, at, form)
}

impl<F: Fn(Global, &mut Cursor<'_>, usize, Inset) -> Result<InsetTree, Refusal>> Rules<F> {
    /// The name of a class, a define or a function.
    #[tactic(auto, unfolding(crate::specs::Definitions::name_rule))]
    fn definition_name(&self, tokens: &mut Cursor<'_>) -> Result<Name, Refusal>
        ensures { Reads (spec.name_rule (within self.now.levels) tokens.old) result tokens.new }
    {
        let token = tokens.expect_name()?;
        Ok(name_of(self.alloc, &token)?)
    }

    /// Parameters up to the parenthesis that closes them, behind those that were found.
    #[tactic(auto, using(crate::proofs::Turns::separated_turn, crate::proofs::Turns::separated_none), unfolding(crate::specs::Input::sees))]
    fn params_from(&self, tokens: &mut Cursor<'_>, mut found: Params) -> Result<Params, Refusal>
        requires { Nests self.now.levels (F.pre self.now.inner) (F.post self.now.inner) }
        ensures { Reads (separated_from (is_at k.CloseParen) k.Comma (param_in (within self.now.levels) false) (turns tokens.old) found tokens.old) result tokens.new }
    {
        for _turn in 0..tokens.turns() {
            if tokens.sees(Kind::CloseParen) {
                return Ok(found);
            }
            let param = self.param_in(tokens, false)?;
            put(self.alloc, &mut found, param, tokens.sees(Kind::Comma))?;
            if !tokens.eat(Kind::Comma)? {
                return Ok(found);
            }
        }
        Err(tokens.refusal())
    }

    /// `( params )`
    #[tactic(auto, unfolding(crate::specs::Definitions::params, crate::specs::Input::separated))]
    fn params(&self, tokens: &mut Cursor<'_>) -> Result<Params, Refusal>
        requires { Nests self.now.levels (F.pre self.now.inner) (F.post self.now.inner) }
        ensures { Reads (spec.params (within self.now.levels) tokens.old) result tokens.new }
    {
        self.open(tokens, Kind::OpenParen)?;
        let found = self.params_from(tokens, Items::new(self.alloc))?;
        tokens.expect(Kind::CloseParen)?;
        Ok(found)
    }

    /// `( params )` or nothing
    #[tactic(auto, unfolding(crate::specs::Definitions::optional_params))]
    fn optional_params(&self, tokens: &mut Cursor<'_>) -> Result<Params, Refusal>
        requires { Nests self.now.levels (F.pre self.now.inner) (F.post self.now.inner) }
        ensures { Reads (spec.optional_params (within self.now.levels) tokens.old) result tokens.new }
    {
        match tokens.peek() {
            Some(Kind::OpenParen) => self.params(tokens),
            _ => Ok(Items::new(self.alloc)),
        }
    }

    /// `inherits name` or nothing
    #[tactic(auto, unfolding(crate::specs::Definitions::optional_inherits))]
    fn optional_inherits(&self, tokens: &mut Cursor<'_>) -> Result<Option<Name>, Refusal>
        ensures { Reads (spec.optional_inherits (within self.now.levels) tokens.old) result tokens.new }
    {
        match tokens.peek() {
            Some(Kind::Inherits) => {
                tokens.take()?;
                Ok(Some(self.definition_name(tokens)?))
            }
            _ => Ok(None),
        }
    }

    /// Behind the word `class`.
    #[tactic(auto, unfolding(crate::specs::Definitions::class))]
    pub fn class(&self, tokens: &mut Cursor<'_>, at: u32) -> Result<Definition, Refusal>
        requires { Nests self.now.levels (F.pre self.now.inner) (F.post self.now.inner) }
        ensures { Reads (spec.class (within self.now.levels) at tokens.old) result tokens.new }
    {
        let name = self.definition_name(tokens)?;
        let params = self.optional_params(tokens)?;
        let inherits = self.optional_inherits(tokens)?;
        let block = self.block(tokens)?;
        Ok(Definition::Class(Class {
            name,
            params,
            inherits,
            block,
            at,
        }))
    }

    /// Behind the word `define`.
    #[tactic(auto, unfolding(crate::specs::Definitions::define))]
    pub fn define(&self, tokens: &mut Cursor<'_>, at: u32) -> Result<Definition, Refusal>
        requires { Nests self.now.levels (F.pre self.now.inner) (F.post self.now.inner) }
        ensures { Reads (spec.define (within self.now.levels) at tokens.old) result tokens.new }
    {
        let name = self.definition_name(tokens)?;
        let params = self.optional_params(tokens)?;
        let block = self.block(tokens)?;
        Ok(Definition::Define(Define {
            name,
            params,
            block,
            at,
        }))
    }

    /// Behind the name of a type: its arguments, where it has any.
    #[tactic(auto, unfolding(crate::specs::Definitions::type_from))]
    fn type_from(&self, tokens: &mut Cursor<'_>, kind: Name) -> Result<Expr, Refusal>
        requires { Nests self.now.levels (F.pre self.now.inner) (F.post self.now.inner) }
        ensures { Reads (spec.type_from (within self.now.levels) kind tokens.old) result tokens.new }
    {
        match tokens.peek() {
            Some(Kind::TightBracket) => {
                let args = self.access(tokens)?;
                Ok(applied_type(self.alloc, kind, args)?)
            }
            _ => Ok(Expr::new(self.alloc, kind.at, Form::Type(kind.text))?),
        }
    }

    /// Behind `>>`: the type of what a function gives.
    #[tactic(auto, unfolding(crate::specs::Definitions::return_type))]
    fn return_type(&self, tokens: &mut Cursor<'_>) -> Result<Expr, Refusal>
        requires { Nests self.now.levels (F.pre self.now.inner) (F.post self.now.inner) }
        ensures { Reads (spec.return_type (within self.now.levels) tokens.old) result tokens.new }
    {
        let token = tokens.expect(Kind::Type)?;
        let kind = name_of(self.alloc, &token)?;
        self.type_from(tokens, kind)
    }

    /// `>> type` or nothing
    #[tactic(auto, unfolding(crate::specs::Definitions::optional_return))]
    fn optional_return(&self, tokens: &mut Cursor<'_>) -> Result<Option<Expr>, Refusal>
        requires { Nests self.now.levels (F.pre self.now.inner) (F.post self.now.inner) }
        ensures { Reads (spec.optional_return (within self.now.levels) tokens.old) result tokens.new }
    {
        match tokens.peek() {
            Some(Kind::Returns) => {
                tokens.take()?;
                Ok(Some(self.return_type(tokens)?))
            }
            _ => Ok(None),
        }
    }

    /// Behind the word `function`.
    #[tactic(auto, unfolding(crate::specs::Definitions::function_definition))]
    pub fn function_definition(
        &self,
        tokens: &mut Cursor<'_>,
        at: u32,
    ) -> Result<Definition, Refusal>
        requires { Nests self.now.levels (F.pre self.now.inner) (F.post self.now.inner) }
        ensures { Reads (spec.function_definition (within self.now.levels) at tokens.old) result tokens.new }
    {
        let name = self.definition_name(tokens)?;
        let params = self.optional_params(tokens)?;
        let return_type = self.optional_return(tokens)?;
        let block = self.function_block(tokens)?;
        Ok(Definition::Function(Function {
            name,
            params,
            return_type,
            block,
            at,
        }))
    }

    /// A text in double quotes without interpolation.
    #[tactic(auto, unfolding(crate::specs::Definitions::plain_text))]
    fn plain_text(&self, tokens: &mut Cursor<'_>) -> Result<Text, Refusal>
        ensures { Reads (spec.plain_text (within self.now.levels) tokens.old) result tokens.new }
    {
        tokens.expect(Kind::TextBegin)?;
        match tokens.peek() {
            Some(Kind::Piece) => {
                let piece = tokens.take()?;
                tokens.expect(Kind::TextEnd)?;
                Ok(piece.text(self.alloc)?)
            }
            _ => {
                tokens.expect(Kind::TextEnd)?;
                Ok(Text::from_str(self.alloc, "")?)
            }
        }
    }

    /// The next token as a text.
    fn taken_text(&self, tokens: &mut Cursor<'_>) -> Result<Text, Refusal>
        ensures { Reads (spec.taken_text tokens.old) result tokens.new }
    {
        let token = tokens.take()?;
        Ok(token.text(self.alloc)?)
    }

    /// What a node definition names.
    fn node_name_here(&self, tokens: &mut Cursor<'_>) -> Result<Option<Text>, Refusal>
        ensures { Reads (spec.node_name_here (within self.now.levels) tokens.old) result tokens.new }
    {
        match tokens.peek() {
            Some(Kind::Text) => Ok(node_name(self.taken_text(tokens)?)),
            Some(Kind::TextBegin) => Ok(node_name(self.plain_text(tokens)?)),
            Some(Kind::Name | Kind::StatementFunction) => Ok(Some(self.taken_text(tokens)?)),
            Some(Kind::Default) => {
                tokens.take()?;
                Ok(None)
            }
            _ => Err(tokens.refusal()),
        }
    }

    /// A name of a node definition.
    #[tactic(auto, unfolding(crate::specs::Definitions::node_name_rule))]
    fn node_name_rule(&self, tokens: &mut Cursor<'_>) -> Result<NodeName, Refusal>
        ensures { Reads (spec.node_name_rule (within self.now.levels) tokens.old) result tokens.new }
    {
        let at = tokens.line();
        let name = self.node_name_here(tokens)?;
        Ok(NodeName { name, at })
    }

    /// Names with commas between them, and none at the end.
    #[tactic(auto, using(crate::proofs::Loops::node_names_turn, crate::proofs::Loops::node_names_none), unfolding(crate::specs::Definitions::node_names))]
    fn node_names(&self, tokens: &mut Cursor<'_>) -> Result<Items<NodeName>, Refusal>
        ensures { Reads (spec.node_names (within self.now.levels) tokens.old) result tokens.new }
    {
        let mut found = Items::new(self.alloc);
        for _turn in 0..tokens.turns() {
            found.push(self.node_name_rule(tokens)?)?;
            if !tokens.eat(Kind::Comma)? {
                return Ok(found);
            }
        }
        Err(tokens.refusal())
    }

    /// Behind the word `node`.
    #[tactic(auto, unfolding(crate::specs::Definitions::node))]
    pub fn node(&self, tokens: &mut Cursor<'_>, at: u32) -> Result<Definition, Refusal>
        requires { Nests self.now.levels (F.pre self.now.inner) (F.post self.now.inner) }
        ensures { Reads (spec.node (within self.now.levels) at tokens.old) result tokens.new }
    {
        let names = self.node_names(tokens)?;
        let block = self.block(tokens)?;
        Ok(Definition::Node(Node { names, block, at }))
    }
}
