//! Parameters, and what is read of them as an expression.

ghost use Rattle.std.specs.Prelude.{◌≡◌};
ghost use Rattle.pp_parser.specs.Expressions as rules;
ghost use Rattle.pp_parser.specs.Input.{Reads};
ghost use Rattle.pp_parser.specs.Levels.{within};
ghost use Rattle.pp_parser.specs.Nests.{Nests};
ghost use Rattle.pp_parser.specs.Params as spec;
ghost use Rattle.pp_tree.specs.Building.{expr_at};
ghost use Rattle.pp_tree.specs.declared.expr.Form.TheVariants.{Assign};

use crate::cursor::Cursor;
use crate::inset::{Inset, InsetTree};
use crate::operators::LOOSEST;
use crate::refusal::Refusal;
use crate::rules::Rules;
use crate::started::Started;
use pp_lexer::Kind;
use pp_tree::{Expr, Form, Param};
use pp_values::{Boxed, Items, Text};
use std::alloc::Global;

/// Whether a name has one segment and no leading `::`.
#[tactic(auto, unfolding(crate::specs::Params::is_simple))]
fn is_simple(name: &Text) -> bool
    ensures { result ≡ spec.is_simple name.now }
{
    let mut rest = name.as_str().as_bytes();
    while let [byte, after @ ..] = rest {
        if *byte == b':' {
            return false;
        }
        rest = after;
    }
    true
}

/// `$name` or `$name = default`, which was read as an expression.
#[tactic(auto, unfolding(crate::specs::Params::param_from))]
fn param_from(tokens: &mut Cursor<'_>, at: u32, x: Expr) -> Result<Param, Refusal>
    ensures { Reads (spec.param_from at x tokens.old) result tokens.new }
{
    match x.form.into_inner() {
        Form::Variable(name) => {
            if !is_simple(&name) {
                return Err(tokens.refusal());
            }
            Ok(Param {
                kind: None,
                name,
                default: None,
                at,
            })
        }
        Form::Assign(name, default) => Ok(Param {
            kind: None,
            name: name.into_inner(),
            default: Some(default),
            at,
        }),
        _ => Err(tokens.refusal()),
    }
}

impl<F: Fn(Global, &mut Cursor<'_>, usize, Inset) -> Result<InsetTree, Refusal>> Rules<F> {
    /// `= default`, or nothing.
    #[tactic(auto, unfolding(crate::specs::Expressions::default_rule))]
    fn default(&self, tokens: &mut Cursor<'_>, bars: bool) -> Result<Option<Expr>, Refusal>
        requires { Nests self.now.levels (F.pre self.now.inner) (F.post self.now.inner) }
        ensures { Reads (rules.default_rule (within self.now.levels) bars tokens.old) result tokens.new }
    {
        match tokens.peek() {
            Some(Kind::Assign) => {
                self.open(tokens, Kind::Assign)?;
                Ok(Some(self.whole_in(tokens, bars)?))
            }
            _ => Ok(None),
        }
    }

    /// The variable and the default behind a type.
    #[tactic(auto, unfolding(crate::specs::Expressions::typed_param))]
    fn typed_param(&self, tokens: &mut Cursor<'_>, bars: bool, kind: Expr) -> Result<Param, Refusal>
        requires { Nests self.now.levels (F.pre self.now.inner) (F.post self.now.inner) }
        ensures { Reads (rules.typed_param (within self.now.levels) bars kind tokens.old) result tokens.new }
    {
        let token = tokens.expect(Kind::Variable)?;
        let default = self.default(tokens, bars)?;
        Ok(Param {
            kind: Some(kind),
            name: token.text(self.alloc)?,
            default,
            at: token.line(),
        })
    }

    /// Behind an expression: a variable whose type it is, or nothing where it is a variable itself or its assignment.
    #[tactic(auto, unfolding(crate::specs::Expressions::param_behind))]
    fn behind_expr(
        &self,
        tokens: &mut Cursor<'_>,
        bars: bool,
        at: u32,
        x: Expr,
    ) -> Result<Param, Refusal>
        requires { Nests self.now.levels (F.pre self.now.inner) (F.post self.now.inner) }
        ensures { Reads (rules.param_behind (within self.now.levels) bars at x tokens.old) result tokens.new }
    {
        match tokens.peek() {
            Some(Kind::Variable) => self.typed_param(tokens, bars, x),
            _ => param_from(tokens, at, x),
        }
    }

    /// Behind a variable and its default. They become an expression only where another variable follows, whose type it is.
    #[tactic(auto, unfolding(crate::specs::Expressions::param_behind, crate::specs::Params::param_from))]
    fn behind_default(
        &self,
        tokens: &mut Cursor<'_>,
        bars: bool,
        at: u32,
        name: Text,
        default: Expr,
    ) -> Result<Param, Refusal>
        requires { Nests self.now.levels (F.pre self.now.inner) (F.post self.now.inner) }
        ensures { Reads (rules.param_behind (within self.now.levels) bars at (expr_at at (Assign name default)) tokens.old) result tokens.new }
    {
        match tokens.peek() {
            Some(Kind::Variable) => {
                let form = Form::Assign(Boxed::new(self.alloc, name)?, default);
                let kind = Expr::new(self.alloc, at, form)?;
                self.typed_param(tokens, bars, kind)
            }
            _ => Ok(Param {
                kind: None,
                name,
                default: Some(default),
                at,
            }),
        }
    }

    /// Behind a variable at the beginning of a parameter.
    #[tactic(auto, unfolding(crate::specs::Expressions::variable_param, crate::specs::Expressions::assigned))]
    fn behind_variable(
        &self,
        tokens: &mut Cursor<'_>,
        bars: bool,
        at: u32,
        name: Text,
    ) -> Result<Param, Refusal>
        requires { Nests self.now.levels (F.pre self.now.inner) (F.post self.now.inner) }
        ensures { Reads (rules.variable_param (within self.now.levels) bars at name tokens.old) result tokens.new }
    {
        match tokens.peek() {
            Some(Kind::Assign) => {
                self.open(tokens, Kind::Assign)?;
                let default = self.whole_in(tokens, bars)?;
                self.behind_default(tokens, bars, at, name, default)
            }
            _ => {
                let start = Started {
                    base: Expr::new(self.alloc, at, Form::Variable(name))?,
                    postfixes: Items::new(self.alloc),
                };
                let x = self.chain(tokens, false, LOOSEST, Some(start))?;
                self.behind_expr(tokens, bars, at, x)
            }
        }
    }

    /// An expression and a variable, or an expression that is a variable or its assignment.
    #[tactic(auto, unfolding(crate::specs::Expressions::param_rule, crate::specs::Expressions::param_behind, crate::specs::Expressions::variable_param, crate::specs::Expressions::whole, crate::specs::Input::line_at, crate::specs::Input::take, crate::specs::Input::kind, crate::specs::Input::kind_at))]
    pub fn param(&self, tokens: &mut Cursor<'_>, bars: bool) -> Result<Param, Refusal>
        requires { Nests self.now.levels (F.pre self.now.inner) (F.post self.now.inner) }
        ensures { Reads (rules.param_rule (within self.now.levels) bars tokens.old) result tokens.new }
    {
        let at = tokens.line();
        match tokens.peek() {
            Some(Kind::Variable) => {
                let name = tokens.take()?.text(self.alloc)?;
                self.behind_variable(tokens, bars, at, name)
            }
            _ => {
                let x = self.chain(tokens, false, LOOSEST, None)?;
                self.behind_expr(tokens, bars, at, x)
            }
        }
    }
}
