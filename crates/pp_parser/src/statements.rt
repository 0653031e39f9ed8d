//! Statements and blocks.

ghost use Rattle.pp_parser.specs.Input.{Reads};
ghost use Rattle.pp_parser.specs.Levels.{within};
ghost use Rattle.pp_parser.specs.Nests.{Nests};
ghost use Rattle.pp_parser.specs.Statements as spec;
ghost use Rattle.std.specs.Prelude.{◌≡◌, None};

use crate::cursor::Cursor;
use crate::inset::{Inset, InsetTree};
use crate::lists::put;
use crate::operands::{Read, taken_name};
use crate::refusal::Refusal;
use crate::rules::Rules;
use pp_lexer::Kind;
use pp_tree::{
    Args, Block, Chain, Defaults, Expr, Form, Name, Operand, Override, Postfix, Reference,
    Statement,
};
use pp_values::{Boxed, Items};
use std::alloc::Global;

/// Whether a block ends here.
fn ends_block(pending: &Option<Name>, next: Option<Kind>) -> bool
    ensures { result ≡ spec.ends_block pending.now next }
{
    match (pending, next) {
        (None, Some(Kind::CloseBrace)) => true,
        _ => false,
    }
}

impl<F: Fn(Global, &mut Cursor<'_>, usize, Inset) -> Result<InsetTree, Refusal>> Rules<F> {
    /// An operand that no arrow may follow.
    fn alone(&self, at: u32, only: Operand) -> Read
        ensures { result ≡ spec.alone at only }
    {
        let chain = Chain {
            first: only,
            links: Items::new(self.alloc),
            at,
        };
        (Statement::Chain(chain), None)
    }

    /// Behind a name: a chain that begins with it.
    pub fn named_chain(&self, tokens: &mut Cursor<'_>, name: Name) -> Result<Read, Refusal>
        requires { Nests self.now.levels (F.pre self.now.inner) (F.post self.now.inner) }
        ensures { Reads (spec.named_chain (within self.now.levels) name tokens.old) result tokens.new }
    {
        let at = name.at;
        let first = self.behind_name(tokens, name)?;
        self.chain_from(tokens, at, first)
    }

    /// Behind the name of a type: `{ attributes }`
    #[tactic(auto, unfolding(crate::specs::Statements::defaults_rule))]
    fn defaults(&self, tokens: &mut Cursor<'_>, kind: Name) -> Result<Read, Refusal>
        requires { Nests self.now.levels (F.pre self.now.inner) (F.post self.now.inner) }
        ensures { Reads (spec.defaults_rule (within self.now.levels) kind tokens.old) result tokens.new }
    {
        let attributes = self.attributes(tokens, false)?;
        let at = kind.at;
        let defaults = Defaults {
            kind: kind.text,
            attributes,
            at,
        };
        let operand = Operand::Defaults(Boxed::new(self.alloc, defaults)?);
        Ok(self.alone(at, operand))
    }

    /// Behind `Type[args]`: `{ attributes }`
    #[tactic(auto, unfolding(crate::specs::Statements::override_rule))]
    fn override_of(&self, tokens: &mut Cursor<'_>, kind: Name, args: Args) -> Result<Read, Refusal>
        requires { Nests self.now.levels (F.pre self.now.inner) (F.post self.now.inner) }
        ensures { Reads (spec.override_rule (within self.now.levels) kind args tokens.old) result tokens.new }
    {
        let attributes = self.attributes(tokens, true)?;
        let at = kind.at;
        let target = Reference {
            kind: kind.text,
            args,
            at,
        };
        let found = Override {
            target,
            attributes,
            at,
        };
        let operand = Operand::Override(Boxed::new(self.alloc, found)?);
        Ok(self.alone(at, operand))
    }

    /// A chain that begins with `Type[args]`.
    fn reference_chain(
        &self,
        tokens: &mut Cursor<'_>,
        kind: Name,
        args: Args,
    ) -> Result<Read, Refusal>
        requires { Nests self.now.levels (F.pre self.now.inner) (F.post self.now.inner) }
        ensures { Reads (spec.reference_chain (within self.now.levels) kind args tokens.old) result tokens.new }
    {
        let Name { text, at } = kind;
        let mut postfixes = Items::new(self.alloc);
        put(self.alloc, &mut postfixes, Postfix::Access(args), false)?;
        let form = Form::Type(text);
        let first = self.expression_from(tokens, Expr::new(self.alloc, at, form)?, postfixes)?;
        self.chain_from(tokens, at, first)
    }

    /// Behind `Type[args]` at the beginning of a statement.
    #[tactic(auto, unfolding(crate::specs::Statements::reference_rule))]
    fn reference(&self, tokens: &mut Cursor<'_>, kind: Name, args: Args) -> Result<Read, Refusal>
        requires { Nests self.now.levels (F.pre self.now.inner) (F.post self.now.inner) }
        ensures { Reads (spec.reference_rule (within self.now.levels) kind args tokens.old) result tokens.new }
    {
        match tokens.peek() {
            Some(Kind::OpenBrace) => self.override_of(tokens, kind, args),
            _ => self.reference_chain(tokens, kind, args),
        }
    }

    /// Behind the name of a type: a chain that begins with it.
    fn typed_chain(&self, tokens: &mut Cursor<'_>, kind: Name) -> Result<Read, Refusal>
        requires { Nests self.now.levels (F.pre self.now.inner) (F.post self.now.inner) }
        ensures { Reads (spec.typed_chain (within self.now.levels) kind tokens.old) result tokens.new }
    {
        let at = kind.at;
        let first = self.behind_type(tokens, kind)?;
        self.chain_from(tokens, at, first)
    }

    /// Behind the name of a type at the beginning of a statement.
    #[tactic(auto, unfolding(crate::specs::Statements::typed))]
    fn typed(&self, tokens: &mut Cursor<'_>, kind: Name) -> Result<Read, Refusal>
        requires { Nests self.now.levels (F.pre self.now.inner) (F.post self.now.inner) }
        ensures { Reads (spec.typed (within self.now.levels) kind tokens.old) result tokens.new }
    {
        match tokens.peek() {
            Some(Kind::OpenBrace) => self.defaults(tokens, kind),
            Some(Kind::TightBracket) => {
                let args = self.access(tokens)?;
                self.reference(tokens, kind, args)
            }
            _ => self.typed_chain(tokens, kind),
        }
    }

    /// A statement whose first operand begins here.
    fn chain_here(&self, tokens: &mut Cursor<'_>) -> Result<Read, Refusal>
        requires { Nests self.now.levels (F.pre self.now.inner) (F.post self.now.inner) }
        ensures { Reads (spec.chain_here (within self.now.levels) tokens.old) result tokens.new }
    {
        let at = tokens.line();
        let first = self.chain_operand(tokens)?;
        self.chain_from(tokens, at, first)
    }

    /// In a template: text that stands outside of its tags.
    fn emitted_text(&self, tokens: &mut Cursor<'_>) -> Result<Read, Refusal>
        ensures { Reads (spec.emitted_text (within self.now.levels) tokens.old) result tokens.new }
    {
        let token = tokens.take()?;
        Ok((Statement::Emit(token.text(self.alloc)?), None))
    }

    /// In a template: a value between `<%=` and the end of its tag.
    #[tactic(auto, unfolding(crate::specs::Statements::emitted_value))]
    fn emitted_value(&self, tokens: &mut Cursor<'_>) -> Result<Read, Refusal>
        requires { Nests self.now.levels (F.pre self.now.inner) (F.post self.now.inner) }
        ensures { Reads (spec.emitted_value (within self.now.levels) tokens.old) result tokens.new }
    {
        tokens.take()?;
        let x = self.whole(tokens, false, false)?;
        tokens.expect(Kind::TagEnd)?;
        Ok((Statement::EmitValue(x), None))
    }

    /// A statement of which nothing was taken yet.
    fn statement_here(&self, tokens: &mut Cursor<'_>) -> Result<Read, Refusal>
        requires { Nests self.now.levels (F.pre self.now.inner) (F.post self.now.inner) }
        ensures { Reads (spec.statement_from (within self.now.levels) None tokens.old) result tokens.new }
    {
        match tokens.peek() {
            Some(Kind::RenderString) => self.emitted_text(tokens),
            Some(Kind::RenderExpr) => self.emitted_value(tokens),
            Some(Kind::StatementFunction) => {
                let name = taken_name(self.alloc, tokens)?;
                self.function(tokens, name)
            }
            Some(Kind::Type) => {
                let kind = taken_name(self.alloc, tokens)?;
                self.typed(tokens, kind)
            }
            _ => self.chain_here(tokens),
        }
    }

    /// A statement, whose name may have been taken already.
    #[tactic(auto, unfolding(crate::specs::Statements::statement_rule))]
    pub fn statement(&self, tokens: &mut Cursor<'_>, pending: Option<Name>) -> Result<Read, Refusal>
        requires { Nests self.now.levels (F.pre self.now.inner) (F.post self.now.inner) }
        ensures { Reads (spec.statement_rule (within self.now.levels) pending tokens.old) result tokens.new }
    {
        match pending {
            Some(name) => self.named_chain(tokens, name),
            None => self.statement_here(tokens),
        }
    }

    /// The statements of a block up to its end.
    #[tactic(auto, using(crate::proofs::Loops::statements_turn, crate::proofs::Loops::statements_none), unfolding(crate::specs::Statements::statements))]
    pub fn statements(&self, tokens: &mut Cursor<'_>) -> Result<Block, Refusal>
        requires { Nests self.now.levels (F.pre self.now.inner) (F.post self.now.inner) }
        ensures { Reads (spec.statements (within self.now.levels) tokens.old) result tokens.new }
    {
        let mut found = Items::new(self.alloc);
        let mut pending = None;
        for _turn in 0..tokens.turns() {
            if ends_block(&pending, tokens.peek()) {
                return Ok(found);
            }
            let (statement, next) = self.statement(tokens, pending)?;
            put(
                self.alloc,
                &mut found,
                statement,
                !tokens.sees(Kind::CloseBrace),
            )?;
            pending = next;
            tokens.eat(Kind::Semicolon)?;
        }
        Err(tokens.refusal())
    }
}
