//! The rules take what reads one level further in as a parameter, so that each rule is proved by itself.

ghost use Rattle.pp_parser.specs.Input.{Reads, Takes, open_level};
ghost use Rattle.pp_parser.specs.Inner as spec;
ghost use Rattle.pp_parser.specs.Levels.{within};
ghost use Rattle.pp_parser.specs.Nests.{Nests};

use crate::cursor::Cursor;
use crate::inset::{Inset, InsetTree};
use crate::refusal::Refusal;
use pp_lexer::{Kind, Token};
use pp_tree::{Block, CaseOption, Expr, Param, Query};
use std::alloc::Global;

/// The rules of the grammar where so many levels may still be opened.
#[derive(Clone, Copy)]
pub struct Rules<F> {
    pub alloc: Global,
    pub levels: usize,
    /// Reads a goal with the number of levels that it is given.
    pub inner: F,
}

// These stand by themselves so that their cases take no stack while the parts further in are read.

/// The expression that a part is.
fn expr_of(tokens: &Cursor<'_>, part: InsetTree) -> Result<Expr, Refusal>
    ensures { Reads (spec.expr_of part tokens.now) result tokens.now }
{
    match part {
        InsetTree::Expr(x) => Ok(x),
        _ => Err(tokens.refusal()),
    }
}

/// The parameter that a part is.
fn param_of(tokens: &Cursor<'_>, part: InsetTree) -> Result<Param, Refusal>
    ensures { Reads (spec.param_of part tokens.now) result tokens.now }
{
    match part {
        InsetTree::Param(x) => Ok(x),
        _ => Err(tokens.refusal()),
    }
}

/// The statements that a part is.
fn block_of(tokens: &Cursor<'_>, part: InsetTree) -> Result<Block, Refusal>
    ensures { Reads (spec.block_of part tokens.now) result tokens.now }
{
    match part {
        InsetTree::Block(x) => Ok(x),
        _ => Err(tokens.refusal()),
    }
}

/// The option of a `case` that a part is.
fn case_option_of(tokens: &Cursor<'_>, part: InsetTree) -> Result<CaseOption, Refusal>
    ensures { Reads (spec.case_option_of part tokens.now) result tokens.now }
{
    match part {
        InsetTree::CaseOption(x) => Ok(x),
        _ => Err(tokens.refusal()),
    }
}

/// The query that a part is.
fn query_of(tokens: &Cursor<'_>, part: InsetTree) -> Result<Query, Refusal>
    ensures { Reads (spec.query_of part tokens.now) result tokens.now }
{
    match part {
        InsetTree::Query(x) => Ok(x),
        _ => Err(tokens.refusal()),
    }
}

impl<F: Fn(Global, &mut Cursor<'_>, usize, Inset) -> Result<InsetTree, Refusal>> Rules<F> {
    fn read(&self, tokens: &mut Cursor<'_>, goal: Inset) -> Result<InsetTree, Refusal>
        requires { Nests self.now.levels (F.pre self.now.inner) (F.post self.now.inner) }
        ensures { Reads ((within self.now.levels).read goal tokens.old) result tokens.new }
    {
        if self.levels == 0 {
            return Err(tokens.refusal());
        }
        (self.inner)(self.alloc, tokens, self.levels - 1, goal)
    }

    /// A token of this kind, which opens a level.
    #[tactic(auto, using(crate::proofs::Turns::deepest_is))]
    pub fn open<'a>(&self, tokens: &mut Cursor<'a>, kind: Kind) -> Result<Token<'a>, Refusal>
        requires { Nests self.now.levels (F.pre self.now.inner) (F.post self.now.inner) }
        ensures { Takes (open_level (within self.now.levels).is_deepest kind tokens.old) result tokens.new }
    {
        tokens.open_level(self.levels == 0, kind)
    }

    /// A whole expression, one level further in.
    #[tactic(auto, unfolding(crate::specs::Inner::whole_in))]
    pub fn whole_in(&self, tokens: &mut Cursor<'_>, bars: bool) -> Result<Expr, Refusal>
        requires { Nests self.now.levels (F.pre self.now.inner) (F.post self.now.inner) }
        ensures { Reads (spec.whole_in (within self.now.levels) bars tokens.old) result tokens.new }
    {
        let part = self.read(tokens, Inset::Whole(bars))?;
        expr_of(tokens, part)
    }

    /// The operand of a prefix operator.
    #[tactic(auto, unfolding(crate::specs::Inner::operand_in))]
    pub fn operand_in(&self, tokens: &mut Cursor<'_>, bars: bool) -> Result<Expr, Refusal>
        requires { Nests self.now.levels (F.pre self.now.inner) (F.post self.now.inner) }
        ensures { Reads (spec.operand_in (within self.now.levels) bars tokens.old) result tokens.new }
    {
        let part = self.read(tokens, Inset::Operand(bars))?;
        expr_of(tokens, part)
    }

    /// What stands between `${` and `}`.
    #[tactic(auto, unfolding(crate::specs::Inner::interpolated_in))]
    pub fn interpolated_in(&self, tokens: &mut Cursor<'_>) -> Result<Expr, Refusal>
        requires { Nests self.now.levels (F.pre self.now.inner) (F.post self.now.inner) }
        ensures { Reads (spec.interpolated_in (within self.now.levels) tokens.old) result tokens.new }
    {
        let part = self.read(tokens, Inset::Interpolated)?;
        expr_of(tokens, part)
    }

    /// A parameter.
    #[tactic(auto, unfolding(crate::specs::Inner::param_in))]
    pub fn param_in(&self, tokens: &mut Cursor<'_>, bars: bool) -> Result<Param, Refusal>
        requires { Nests self.now.levels (F.pre self.now.inner) (F.post self.now.inner) }
        ensures { Reads (spec.param_in (within self.now.levels) bars tokens.old) result tokens.new }
    {
        let part = self.read(tokens, Inset::Param(bars))?;
        param_of(tokens, part)
    }

    /// The statements of a block.
    #[tactic(auto, unfolding(crate::specs::Inner::statements_in))]
    pub fn statements_in(&self, tokens: &mut Cursor<'_>) -> Result<Block, Refusal>
        requires { Nests self.now.levels (F.pre self.now.inner) (F.post self.now.inner) }
        ensures { Reads (spec.statements_in (within self.now.levels) tokens.old) result tokens.new }
    {
        let part = self.read(tokens, Inset::Statements)?;
        block_of(tokens, part)
    }

    /// The statements of a function's body.
    #[tactic(auto, unfolding(crate::specs::Inner::function_statements_in))]
    pub fn function_statements_in(&self, tokens: &mut Cursor<'_>) -> Result<Block, Refusal>
        requires { Nests self.now.levels (F.pre self.now.inner) (F.post self.now.inner) }
        ensures { Reads (spec.function_statements_in (within self.now.levels) tokens.old) result tokens.new }
    {
        let part = self.read(tokens, Inset::FunctionStatements)?;
        block_of(tokens, part)
    }

    /// An option of a `case`.
    #[tactic(auto, unfolding(crate::specs::Inner::case_option_in))]
    pub fn case_option_in(&self, tokens: &mut Cursor<'_>) -> Result<CaseOption, Refusal>
        requires { Nests self.now.levels (F.pre self.now.inner) (F.post self.now.inner) }
        ensures { Reads (spec.case_option_in (within self.now.levels) tokens.old) result tokens.new }
    {
        let part = self.read(tokens, Inset::CaseOption)?;
        case_option_of(tokens, part)
    }

    /// The query of a collector, or one in parentheses.
    #[tactic(auto, unfolding(crate::specs::Inner::query_in))]
    pub fn query_in(&self, tokens: &mut Cursor<'_>) -> Result<Query, Refusal>
        requires { Nests self.now.levels (F.pre self.now.inner) (F.post self.now.inner) }
        ensures { Reads (spec.query_in (within self.now.levels) tokens.old) result tokens.new }
    {
        let part = self.read(tokens, Inset::Query)?;
        query_of(tokens, part)
    }
}
