//! Functions that are called without parentheses.

ghost use Rattle.pp_parser.specs.Input.{Reads, turns};
ghost use Rattle.pp_parser.specs.Levels.{within};
ghost use Rattle.pp_parser.specs.Nests.{Nests};
ghost use Rattle.pp_parser.specs.Statements as spec;
ghost use Rattle.std.specs.Prelude.{[]};

use crate::argument::WordArgument;
use crate::cursor::Cursor;
use crate::inset::{Inset, InsetTree};
use crate::kinds::{begins_expression, is_name};
use crate::lists::put;
use crate::operands::{Read, taken_name};
use crate::operators::LOOSEST;
use crate::refusal::Refusal;
use crate::rules::Rules;
use crate::started::Started;
use pp_lexer::Kind;
use pp_tree::{Args, Expr, Name, Statement, Words};
use pp_values::{Boxed, Items};
use std::alloc::Global;

/// Arguments, and a name behind them that begins the next statement.
pub type WordArguments = (Args, Option<Name>);

impl<F: Fn(Global, &mut Cursor<'_>, usize, Inset) -> Result<InsetTree, Refusal>> Rules<F> {
    /// Behind a name: the rest of an argument, or nothing where the name is none.
    #[tactic(auto, unfolding(crate::specs::Statements::argument_from))]
    fn argument_from(&self, tokens: &mut Cursor<'_>, name: Name) -> Result<WordArgument, Refusal>
        requires { Nests self.now.levels (F.pre self.now.inner) (F.post self.now.inner) }
        ensures { Reads (spec.argument_from (within self.now.levels) name tokens.old) result tokens.new }
    {
        match tokens.peek() {
            Some(Kind::OpenBrace) => Ok(WordArgument::Pending(name)),
            _ => self.named_argument(tokens, name),
        }
    }

    /// Behind a name: the rest of an argument.
    fn named_argument(&self, tokens: &mut Cursor<'_>, name: Name) -> Result<WordArgument, Refusal>
        requires { Nests self.now.levels (F.pre self.now.inner) (F.post self.now.inner) }
        ensures { Reads (spec.named_argument (within self.now.levels) name tokens.old) result tokens.new }
    {
        let Name { text, at } = name;
        let form = self.call_or_name(tokens, false, text)?;
        let start = Some(Started {
            base: Expr::new(self.alloc, at, form)?,
            postfixes: Items::new(self.alloc),
        });
        Ok(WordArgument::Argument(self.chain(tokens, false, LOOSEST, start)?))
    }

    /// An argument, or a name that `{` follows, which is none.
    #[tactic(auto, unfolding(crate::specs::Statements::argument_rule))]
    fn argument(&self, tokens: &mut Cursor<'_>) -> Result<WordArgument, Refusal>
        requires { Nests self.now.levels (F.pre self.now.inner) (F.post self.now.inner) }
        ensures { Reads (spec.argument_rule (within self.now.levels) tokens.old) result tokens.new }
    {
        if is_name(tokens.peek()) {
            let name = taken_name(self.alloc, tokens)?;
            self.argument_from(tokens, name)
        } else {
            Ok(WordArgument::Argument(self.whole(tokens, false, false)?))
        }
    }

    /// Arguments, behind those that were found.
    #[tactic(auto, using(crate::proofs::Loops::words_turn, crate::proofs::Loops::words_none))]
    fn word_arguments(&self, tokens: &mut Cursor<'_>) -> Result<WordArguments, Refusal>
        requires { Nests self.now.levels (F.pre self.now.inner) (F.post self.now.inner) }
        ensures { Reads (spec.words_from (within self.now.levels) (turns tokens.old) [] tokens.old) result tokens.new }
    {
        let mut found = Items::new(self.alloc);
        for _turn in 0..tokens.turns() {
            if !begins_expression(tokens.peek()) {
                return Ok((found, None));
            }
            match self.argument(tokens)? {
                WordArgument::Pending(name) => return Ok((found, Some(name))),
                WordArgument::Argument(x) => {
                    put(self.alloc, &mut found, x, tokens.sees(Kind::Comma))?;
                }
            }
            if !tokens.eat(Kind::Comma)? {
                return Ok((found, None));
            }
        }
        Err(tokens.refusal())
    }

    /// Behind the name of a statement function: its arguments.
    #[tactic(auto, unfolding(crate::specs::Statements::words))]
    fn words(&self, tokens: &mut Cursor<'_>, name: Name) -> Result<Read, Refusal>
        requires { Nests self.now.levels (F.pre self.now.inner) (F.post self.now.inner) }
        ensures { Reads (spec.words (within self.now.levels) name tokens.old) result tokens.new }
    {
        let (args, pending) = self.word_arguments(tokens)?;
        let words = Words {
            function: name.text,
            args,
            at: name.at,
        };
        Ok((Statement::Words(Boxed::new(self.alloc, words)?), pending))
    }

    /// Behind the name of a statement function at the beginning of a statement.
    #[tactic(auto, unfolding(crate::specs::Statements::function))]
    pub fn function(&self, tokens: &mut Cursor<'_>, name: Name) -> Result<Read, Refusal>
        requires { Nests self.now.levels (F.pre self.now.inner) (F.post self.now.inner) }
        ensures { Reads (spec.function (within self.now.levels) name tokens.old) result tokens.new }
    {
        match tokens.peek() {
            Some(Kind::OpenParen | Kind::OpenBrace) => self.named_chain(tokens, name),
            _ => self.words(tokens, name),
        }
    }
}
