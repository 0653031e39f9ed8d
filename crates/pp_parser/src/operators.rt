//! Operators, and whole expressions.

ghost use Rattle.std.specs.Prelude.{◌≡◌, ◌<◌, ◌-◌, None, IfOk};
ghost use Rattle.pp_parser.specs.Expressions as spec;
ghost use Rattle.pp_parser.specs.Input.{Reads, repeat};
ghost use Rattle.pp_parser.specs.Levels.{within};
ghost use Rattle.pp_parser.specs.Nests.{Nests};

use crate::cursor::Cursor;
use crate::inset::{Inset, InsetTree};
use crate::lists::put;
use crate::refusal::Refusal;
use crate::rules::Rules;
use crate::started::Started;
use pp_lexer::Kind;
use pp_tree::{BinaryOperator, Expr, Form, Operation, PrefixOperator};
use pp_values::{Boxed, Items, Memory, Text};
use std::alloc::Global;

/// How loosely the loosest binary operator binds.
pub const LOOSEST: u8 = 9;

/// How loosely a binary operator binds, from 1 for the tightest; 0 for all else.
fn binds(next: Option<Kind>) -> u8
    ensures { result ≡ spec.binds next }
{
    match next {
        Some(Kind::In) => 1,
        Some(Kind::Match | Kind::NoMatch) => 2,
        Some(Kind::Star | Kind::Slash | Kind::Percent) => 3,
        Some(Kind::Plus | Kind::Minus) => 4,
        Some(Kind::Append) => 5,
        Some(Kind::Equal | Kind::NotEqual) => 6,
        Some(Kind::AtLeast | Kind::AtMost | Kind::Greater | Kind::Less) => 7,
        Some(Kind::And) => 8,
        Some(Kind::Or) => 9,
        _ => 0,
    }
}

fn binary_operator(next: Option<Kind>) -> Option<BinaryOperator>
    ensures { result ≡ spec.binary_operator next }
{
    match next {
        Some(Kind::In) => Some(BinaryOperator::In),
        Some(Kind::Match) => Some(BinaryOperator::Match),
        Some(Kind::NoMatch) => Some(BinaryOperator::NoMatch),
        Some(Kind::Star) => Some(BinaryOperator::Multiply),
        Some(Kind::Slash) => Some(BinaryOperator::Divide),
        Some(Kind::Percent) => Some(BinaryOperator::Modulo),
        Some(Kind::Plus) => Some(BinaryOperator::Add),
        Some(Kind::Minus) => Some(BinaryOperator::Subtract),
        Some(Kind::Append) => Some(BinaryOperator::Append),
        Some(Kind::Equal) => Some(BinaryOperator::Equal),
        Some(Kind::NotEqual) => Some(BinaryOperator::NotEqual),
        Some(Kind::AtLeast) => Some(BinaryOperator::AtLeast),
        Some(Kind::AtMost) => Some(BinaryOperator::AtMost),
        Some(Kind::Greater) => Some(BinaryOperator::Greater),
        Some(Kind::Less) => Some(BinaryOperator::Less),
        Some(Kind::And) => Some(BinaryOperator::And),
        Some(Kind::Or) => Some(BinaryOperator::Or),
        _ => None,
    }
}

/// The operator, where it binds as loosely as this.
#[tactic(auto, unfolding(crate::specs::Expressions::operator_at))]
fn operator_at(strength: u8, next: Option<Kind>) -> Option<BinaryOperator>
    ensures { result ≡ spec.operator_at strength next }
{
    if binds(next) == strength {
        binary_operator(next)
    } else {
        None
    }
}

/// An operand and the operations behind it. An operand alone is no chain.
fn chained(alloc: Global, first: Expr, operations: Items<Operation>) -> Result<Expr, Memory>
    ensures { IfOk result (λ x. x ≡ spec.chained first operations) }
{
    if operations.is_empty() {
        return Ok(first);
    }
    let at = first.at;
    let form = Form::Binary(Boxed::new(alloc, first)?, operations);
    Expr::new(alloc, at, form)
}

impl<F: Fn(Global, &mut Cursor<'_>, usize, Inset) -> Result<InsetTree, Refusal>> Rules<F> {
    /// A prefix operator and its operand.
    #[tactic(auto, unfolding(crate::specs::Expressions::prefixed))]
    fn prefixed(
        &self,
        tokens: &mut Cursor<'_>,
        bars: bool,
        mark: Kind,
        operator: PrefixOperator,
    ) -> Result<Expr, Refusal>
        requires { Nests self.now.levels (F.pre self.now.inner) (F.post self.now.inner) }
        ensures { Reads (spec.prefixed (within self.now.levels) bars mark operator tokens.old) result tokens.new }
    {
        let at = tokens.line();
        self.open(tokens, mark)?;
        let x = self.operand_in(tokens, bars)?;
        Ok(Expr::new(self.alloc, at, Form::Prefix(operator, x))?)
    }

    /// Prefix operators, in any order, and a value.
    #[tactic(auto, unfolding(crate::specs::Expressions::operand))]
    pub fn operand(&self, tokens: &mut Cursor<'_>, bars: bool) -> Result<Expr, Refusal>
        requires { Nests self.now.levels (F.pre self.now.inner) (F.post self.now.inner) }
        ensures { Reads (spec.operand (within self.now.levels) bars tokens.old) result tokens.new }
    {
        match tokens.peek() {
            Some(Kind::Bang) => self.prefixed(tokens, bars, Kind::Bang, PrefixOperator::Not),
            Some(Kind::Minus) => self.prefixed(tokens, bars, Kind::Minus, PrefixOperator::Negate),
            Some(Kind::Star) => self.prefixed(tokens, bars, Kind::Star, PrefixOperator::Splat),
            _ => self.value(tokens, bars),
        }
    }

    /// Operators of this strength and their right operands.
    #[cycle(climb)]
    #[tactic(auto, unfolding(crate::specs::Input::repeat, crate::specs::Expressions::operation_rule), using(crate::proofs::Turns::repeat_turn, crate::proofs::Turns::repeat_none, crate::proofs::Behind::chain_behind))]
    fn operations(
        &self,
        tokens: &mut Cursor<'_>,
        bars: bool,
        strength: u8,
    ) -> Result<Items<Operation>, Refusal>
        requires nests { Nests self.now.levels (F.pre self.now.inner) (F.post self.now.inner) }
        requires some { 0 < strength }
        ensures { Reads (repeat (spec.operation_rule (within self.now.levels) (spec.chain (within self.now.levels) bars (strength - 1) None) strength) tokens.old) result tokens.new }
    {
        let mut found = Items::new(self.alloc);
        for _turn in 0..tokens.turns() {
            let Some(operator) = operator_at(strength, tokens.peek()) else {
                return Ok(found);
            };
            tokens.take()?;
            let first = self.operand(tokens, bars)?;
            let right = self.climb(tokens, bars, strength - 1, first)?;
            let more = binds(tokens.peek()) == strength;
            put(self.alloc, &mut found, Operation { operator, right }, more)?;
        }
        Err(tokens.refusal())
    }

    /// Behind an operand: operators of this strength and tighter, and their operands.
    ///
    /// A loop over the strengths, where the rule recurs: only an operand within an operand of a looser operator is a call within a call.
    #[cycle(climb)]
    #[tactic(auto, using(crate::proofs::Behind::climb_on, crate::proofs::Behind::climb_done, crate::proofs::Behind::climb_alone))]
    fn climb(
        &self,
        tokens: &mut Cursor<'_>,
        bars: bool,
        loosest: u8,
        first: Expr,
    ) -> Result<Expr, Refusal>
        requires { Nests self.now.levels (F.pre self.now.inner) (F.post self.now.inner) }
        ensures { Reads (spec.climb (within self.now.levels) bars loosest 1 first tokens.old) result tokens.new }
    {
        if binds(tokens.peek()) == 0 {
            return Ok(first);
        }
        let mut x = first;
        for strength in 1..=loosest {
            let more = self.operations(tokens, bars, strength)?;
            x = chained(self.alloc, x, more)?;
        }
        Ok(x)
    }

    /// Operands and operators of this strength and tighter, from left to right. The first operand may be begun already.
    #[tactic(auto, using(crate::proofs::Behind::chain_climbs, crate::proofs::Behind::climb_alone))]
    pub fn chain(
        &self,
        tokens: &mut Cursor<'_>,
        bars: bool,
        loosest: u8,
        start: Option<Started>,
    ) -> Result<Expr, Refusal>
        requires { Nests self.now.levels (F.pre self.now.inner) (F.post self.now.inner) }
        ensures { Reads (spec.chain (within self.now.levels) bars loosest start tokens.old) result tokens.new }
    {
        let first = match start {
            None => self.operand(tokens, bars)?,
            Some(start) => self.postfixes(tokens, bars, start)?,
        };
        if binds(tokens.peek()) == 0 {
            return Ok(first);
        }
        self.climb(tokens, bars, loosest, first)
    }

    /// Behind a variable of one segment at the beginning of an expression.
    #[tactic(auto, unfolding(crate::specs::Expressions::assigned))]
    fn assigned(
        &self,
        tokens: &mut Cursor<'_>,
        bars: bool,
        behind: bool,
        at: u32,
        name: Text,
    ) -> Result<Expr, Refusal>
        requires { Nests self.now.levels (F.pre self.now.inner) (F.post self.now.inner) }
        ensures { Reads (spec.assigned (within self.now.levels) bars behind at name tokens.old) result tokens.new }
    {
        match tokens.peek() {
            Some(Kind::Assign) => {
                self.open(tokens, Kind::Assign)?;
                let x = self.whole_in(tokens, behind)?;
                let form = Form::Assign(Boxed::new(self.alloc, name)?, x);
                Ok(Expr::new(self.alloc, at, form)?)
            }
            _ => {
                let start = Started {
                    base: Expr::new(self.alloc, at, Form::Variable(name))?,
                    postfixes: Items::new(self.alloc),
                };
                self.chain(tokens, bars, LOOSEST, Some(start))
            }
        }
    }

    /// An expression. The second flag is that of the expression behind its `=`, if it has one.
    #[tactic(auto, unfolding(crate::specs::Expressions::whole))]
    pub fn whole(&self, tokens: &mut Cursor<'_>, bars: bool, behind: bool) -> Result<Expr, Refusal>
        requires { Nests self.now.levels (F.pre self.now.inner) (F.post self.now.inner) }
        ensures { Reads (spec.whole (within self.now.levels) bars behind tokens.old) result tokens.new }
    {
        match tokens.peek() {
            Some(Kind::Variable) => {
                let token = tokens.take()?;
                let name = token.text(self.alloc)?;
                self.assigned(tokens, bars, behind, token.line(), name)
            }
            _ => self.chain(tokens, bars, LOOSEST, None),
        }
    }
}
