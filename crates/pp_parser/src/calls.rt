//! Names and calls.

ghost use Rattle.pp_parser.specs.Expressions as spec;
ghost use Rattle.pp_parser.specs.Input.{Reads};
ghost use Rattle.pp_parser.specs.Levels.{within};
ghost use Rattle.pp_parser.specs.Nests.{Nests};

use crate::cursor::Cursor;
use crate::inset::{Inset, InsetTree};
use crate::refusal::Refusal;
use crate::rules::Rules;
use pp_lexer::Kind;
use pp_tree::{Call, Form};
use pp_values::{Boxed, Text};
use std::alloc::Global;

impl<F: Fn(Global, &mut Cursor<'_>, usize, Inset) -> Result<InsetTree, Refusal>> Rules<F> {
    /// Behind a name: `name(args) lambda`, or the name alone.
    #[tactic(auto, unfolding(crate::specs::Expressions::call_or_name))]
    pub fn call_or_name(
        &self,
        tokens: &mut Cursor<'_>,
        bars: bool,
        name: Text,
    ) -> Result<Form, Refusal>
        requires { Nests self.now.levels (F.pre self.now.inner) (F.post self.now.inner) }
        ensures { Reads (spec.call_or_name (within self.now.levels) bars name tokens.old) result tokens.new }
    {
        match tokens.peek() {
            Some(Kind::OpenParen) => {
                let args = self.arguments(tokens)?;
                let lambda = self.optional_lambda(tokens, bars)?;
                let call = Call {
                    function: name,
                    args,
                    lambda,
                };
                Ok(Form::Call(Boxed::new(self.alloc, call)?))
            }
            _ => Ok(Form::Name(name)),
        }
    }

    /// A name, and its call where there is one.
    #[tactic(auto, unfolding(crate::specs::Expressions::named))]
    pub fn named(&self, tokens: &mut Cursor<'_>, bars: bool) -> Result<Form, Refusal>
        requires { Nests self.now.levels (F.pre self.now.inner) (F.post self.now.inner) }
        ensures { Reads (spec.named (within self.now.levels) bars tokens.old) result tokens.new }
    {
        let name = tokens.take()?.text(self.alloc)?;
        self.call_or_name(tokens, bars, name)
    }
}
