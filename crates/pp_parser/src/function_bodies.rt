//! The bodies of functions.

ghost use Rattle.std.specs.Prelude.{◌≡◌};
ghost use Rattle.pp_lexer.specs.declared.kind.Kind.TheVariants as k;
ghost use Rattle.pp_parser.specs.FunctionBodies as spec;
ghost use Rattle.pp_parser.specs.Input.{Reads, separated_from, turns};
ghost use Rattle.pp_parser.specs.Levels.{within};
ghost use Rattle.pp_parser.specs.Nests.{Nests};

use crate::cursor::Cursor;
use crate::inset::{Inset, InsetTree};
use crate::kinds::{begins_expression, is_name};
use crate::lists::put;
use crate::operands::taken_name;
use crate::operators::LOOSEST;
use crate::refusal::Refusal;
use crate::rules::Rules;
use crate::started::Started;
use pp_lexer::Kind;
use pp_tree::{Args, Block, Chain, Expr, Name, Operand, Statement, Words};
use pp_values::{Boxed, Items};
use std::alloc::Global;

/// What no argument begins with.
fn begins_none(next: Option<Kind>) -> bool
    ensures { result ≡ spec.begins_none next }
{
    !begins_expression(next)
}

impl<F: Fn(Global, &mut Cursor<'_>, usize, Inset) -> Result<InsetTree, Refusal>> Rules<F> {
    /// Behind a name that no `{` follows: the expression that begins with it.
    fn unbraced_value(&self, tokens: &mut Cursor<'_>, name: Name) -> Result<Expr, Refusal>
        requires { Nests self.now.levels (F.pre self.now.inner) (F.post self.now.inner) }
        ensures { Reads (spec.unbraced_value (within self.now.levels) name tokens.old) result tokens.new }
    {
        let Name { text, at } = name;
        let form = self.call_or_name(tokens, false, text)?;
        let start = Some(Started {
            base: Expr::new(self.alloc, at, form)?,
            postfixes: Items::new(self.alloc),
        });
        self.chain(tokens, false, LOOSEST, start)
    }

    /// Behind a name: the expression that begins with it. Before `{` it would begin a resource.
    #[tactic(auto, unfolding(crate::specs::FunctionBodies::unbraced_from))]
    fn unbraced_from(&self, tokens: &mut Cursor<'_>, name: Name) -> Result<Expr, Refusal>
        requires { Nests self.now.levels (F.pre self.now.inner) (F.post self.now.inner) }
        ensures { Reads (spec.unbraced_from (within self.now.levels) name tokens.old) result tokens.new }
    {
        match tokens.peek() {
            Some(Kind::OpenBrace) => Err(tokens.refusal()),
            _ => self.unbraced_value(tokens, name),
        }
    }

    /// An expression; where a name begins it, no `{` follows the name.
    #[tactic(auto, unfolding(crate::specs::FunctionBodies::unbraced))]
    fn unbraced(&self, tokens: &mut Cursor<'_>) -> Result<Expr, Refusal>
        requires { Nests self.now.levels (F.pre self.now.inner) (F.post self.now.inner) }
        ensures { Reads (spec.unbraced (within self.now.levels) tokens.old) result tokens.new }
    {
        if is_name(tokens.peek()) {
            let name = taken_name(self.alloc, tokens)?;
            self.unbraced_from(tokens, name)
        } else {
            self.whole(tokens, false, false)
        }
    }

    /// Arguments of a statement function, up to a token that begins none.
    #[tactic(auto, using(crate::proofs::Turns::separated_turn, crate::proofs::Turns::separated_none))]
    fn function_args(&self, tokens: &mut Cursor<'_>, mut found: Args) -> Result<Args, Refusal>
        requires { Nests self.now.levels (F.pre self.now.inner) (F.post self.now.inner) }
        ensures { Reads (separated_from spec.begins_none k.Comma (spec.unbraced (within self.now.levels)) (turns tokens.old) found tokens.old) result tokens.new }
    {
        for _turn in 0..tokens.turns() {
            if begins_none(tokens.peek()) {
                return Ok(found);
            }
            let x = self.unbraced(tokens)?;
            put(self.alloc, &mut found, x, tokens.sees(Kind::Comma))?;
            if !tokens.eat(Kind::Comma)? {
                return Ok(found);
            }
        }
        Err(tokens.refusal())
    }

    /// Behind the name of a statement function: its arguments.
    #[tactic(auto, unfolding(crate::specs::FunctionBodies::function_words, crate::specs::Input::separated))]
    fn function_words(&self, tokens: &mut Cursor<'_>, name: Name) -> Result<Statement, Refusal>
        requires { Nests self.now.levels (F.pre self.now.inner) (F.post self.now.inner) }
        ensures { Reads (spec.function_words (within self.now.levels) name tokens.old) result tokens.new }
    {
        let args = self.function_args(tokens, Items::new(self.alloc))?;
        let words = Words {
            function: name.text,
            args,
            at: name.at,
        };
        Ok(Statement::Words(Boxed::new(self.alloc, words)?))
    }

    /// An expression as a statement.
    fn stated(&self, at: u32, x: Expr) -> Statement
        ensures { result ≡ spec.stated at x }
    {
        Statement::Chain(Chain {
            first: Operand::Expr(x),
            links: Items::new(self.alloc),
            at,
        })
    }

    /// Behind a name: an expression that begins with it.
    fn named_statement(&self, tokens: &mut Cursor<'_>, name: Name) -> Result<Statement, Refusal>
        requires { Nests self.now.levels (F.pre self.now.inner) (F.post self.now.inner) }
        ensures { Reads (spec.named_statement (within self.now.levels) name tokens.old) result tokens.new }
    {
        let at = name.at;
        let x = self.unbraced_from(tokens, name)?;
        Ok(self.stated(at, x))
    }

    /// Behind the name of a statement function at the beginning of a statement.
    #[tactic(auto, unfolding(crate::specs::FunctionBodies::worded))]
    fn worded(&self, tokens: &mut Cursor<'_>, name: Name) -> Result<Statement, Refusal>
        requires { Nests self.now.levels (F.pre self.now.inner) (F.post self.now.inner) }
        ensures { Reads (spec.worded (within self.now.levels) name tokens.old) result tokens.new }
    {
        match tokens.peek() {
            Some(Kind::OpenParen | Kind::OpenBrace) => self.named_statement(tokens, name),
            _ => self.function_words(tokens, name),
        }
    }

    /// An expression.
    #[tactic(auto, unfolding(crate::specs::FunctionBodies::value_statement))]
    fn value_statement(&self, tokens: &mut Cursor<'_>) -> Result<Statement, Refusal>
        requires { Nests self.now.levels (F.pre self.now.inner) (F.post self.now.inner) }
        ensures { Reads (spec.value_statement (within self.now.levels) tokens.old) result tokens.new }
    {
        let at = tokens.line();
        let x = self.unbraced(tokens)?;
        Ok(self.stated(at, x))
    }

    /// Words or an expression.
    #[tactic(auto, unfolding(crate::specs::FunctionBodies::function_statement))]
    fn function_statement(&self, tokens: &mut Cursor<'_>) -> Result<Statement, Refusal>
        requires { Nests self.now.levels (F.pre self.now.inner) (F.post self.now.inner) }
        ensures { Reads (spec.function_statement (within self.now.levels) tokens.old) result tokens.new }
    {
        match tokens.peek() {
            Some(Kind::StatementFunction) => {
                let name = taken_name(self.alloc, tokens)?;
                self.worded(tokens, name)
            }
            _ => self.value_statement(tokens),
        }
    }

    /// A statement with at most one `;` behind it.
    fn ended_statement(&self, tokens: &mut Cursor<'_>) -> Result<Option<Statement>, Refusal>
        requires { Nests self.now.levels (F.pre self.now.inner) (F.post self.now.inner) }
        ensures { Reads (spec.ended_statement (within self.now.levels) tokens.old) result tokens.new }
    {
        let statement = self.function_statement(tokens)?;
        tokens.eat(Kind::Semicolon)?;
        Ok(Some(statement))
    }

    /// The next statement, or nothing at the end of the body.
    #[tactic(auto, unfolding(crate::specs::FunctionBodies::next_statement))]
    fn next_statement(&self, tokens: &mut Cursor<'_>) -> Result<Option<Statement>, Refusal>
        requires { Nests self.now.levels (F.pre self.now.inner) (F.post self.now.inner) }
        ensures { Reads (spec.next_statement (within self.now.levels) tokens.old) result tokens.new }
    {
        match tokens.peek() {
            Some(Kind::CloseBrace) => Ok(None),
            _ => self.ended_statement(tokens),
        }
    }

    /// The statements of a function's body up to its end.
    #[tactic(auto, unfolding(crate::specs::FunctionBodies::function_statements, crate::specs::Input::repeat), using(crate::proofs::Turns::repeat_turn, crate::proofs::Turns::repeat_none))]
    pub fn function_statements(&self, tokens: &mut Cursor<'_>) -> Result<Block, Refusal>
        requires { Nests self.now.levels (F.pre self.now.inner) (F.post self.now.inner) }
        ensures { Reads (spec.function_statements (within self.now.levels) tokens.old) result tokens.new }
    {
        let mut found = Items::new(self.alloc);
        for _turn in 0..tokens.turns() {
            match self.next_statement(tokens)? {
                None => return Ok(found),
                Some(statement) => {
                    let more = !tokens.sees(Kind::CloseBrace);
                    put(self.alloc, &mut found, statement, more)?;
                }
            }
        }
        Err(tokens.refusal())
    }

    /// `{ statements }`
    #[tactic(auto, unfolding(crate::specs::FunctionBodies::function_block))]
    pub fn function_block(&self, tokens: &mut Cursor<'_>) -> Result<Block, Refusal>
        requires { Nests self.now.levels (F.pre self.now.inner) (F.post self.now.inner) }
        ensures { Reads (spec.function_block (within self.now.levels) tokens.old) result tokens.new }
    {
        self.open(tokens, Kind::OpenBrace)?;
        let statements = self.function_statements_in(tokens)?;
        tokens.expect(Kind::CloseBrace)?;
        Ok(statements)
    }
}
