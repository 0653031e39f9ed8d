//! How the rules stand within one another, and where a file is begun.

ghost use Rattle.pp_parser.specs.Definitions as definitions;
ghost use Rattle.pp_parser.specs.Input.{Reads};
ghost use Rattle.pp_parser.specs.Levels.{within, part_by, max_levels};
ghost use Rattle.pp_parser.specs.Templates as templates;

use crate::cursor::Cursor;
use crate::found::Found;
use crate::inset::{Inset, InsetTree};
use crate::refusal::Refusal;
use crate::rules::Rules;
use pp_tree::Template;
use std::alloc::Global;

/// As many levels may be open.
const MAX_LEVELS: usize = 200;

/// What a goal reads, where this many levels may still be opened.
#[tactic(auto, unfolding(crate::specs::Levels::part_by))]
pub fn part(
    alloc: Global,
    tokens: &mut Cursor<'_>,
    levels: usize,
    goal: Inset,
) -> Result<InsetTree, Refusal>
    ensures { Reads (part_by (within levels) goal tokens.old) result tokens.new }
{
    let rules = Rules {
        alloc,
        levels,
        inner: part,
    };
    match goal {
        Inset::Whole(bars) => rules.whole(tokens, bars, bars).map(InsetTree::Expr),
        Inset::Operand(bars) => rules.operand(tokens, bars).map(InsetTree::Expr),
        Inset::Interpolated => rules.interpolated(tokens).map(InsetTree::Expr),
        Inset::Param(bars) => rules.param(tokens, bars).map(InsetTree::Param),
        Inset::Statements => rules.statements(tokens).map(InsetTree::Block),
        Inset::FunctionStatements => rules.function_statements(tokens).map(InsetTree::Block),
        Inset::CaseOption => rules.case_option(tokens).map(InsetTree::CaseOption),
        Inset::Query => rules.query(tokens).map(InsetTree::Query),
    }
}

/// Statements and definitions up to the end of the file.
pub fn main_manifest(alloc: Global, tokens: &mut Cursor<'_>) -> Result<Found, Refusal>
    ensures { Reads (definitions.main_manifest (within max_levels) tokens.old) result tokens.new }
{
    Rules {
        alloc,
        levels: MAX_LEVELS,
        inner: part,
    }
    .main_manifest(tokens)
}

/// Classes, defines and functions up to the end of the file.
pub fn module_file(alloc: Global, tokens: &mut Cursor<'_>) -> Result<Found, Refusal>
    ensures { Reads (definitions.module_file (within max_levels) tokens.old) result tokens.new }
{
    Rules {
        alloc,
        levels: MAX_LEVELS,
        inner: part,
    }
    .module_file(tokens)
}

/// A template up to its end.
pub fn template(alloc: Global, tokens: &mut Cursor<'_>) -> Result<Template, Refusal>
    ensures { Reads (templates.template (within max_levels) tokens.old) result tokens.new }
{
    Rules {
        alloc,
        levels: MAX_LEVELS,
        inner: part,
    }
    .template(tokens)
}
