use pp_tree::{Block, CaseOption, Expr, Param, Query};

/// A part of a manifest that stands one level further in: within a bracket, or behind what opens a level without one.
/// The flag says that it stands directly within the bars of a lambda's parameters, where a `|` that `{` follows ends them.
#[derive(Clone, Copy, Debug, PartialEq, Eq)]
pub enum Inset {
    /// A whole expression.
    Whole(bool),
    /// The operand of a prefix operator.
    Operand(bool),
    /// What stands between `${` and `}`.
    Interpolated,
    /// A parameter.
    Param(bool),
    /// The statements of a block up to its end.
    Statements,
    /// The statements of a function's body up to its end.
    FunctionStatements,
    /// An option of a `case`.
    CaseOption,
    /// The query of a collector, or one in parentheses.
    Query,
}

/// What was read for a goal.
#[derive(Drop)]
pub enum InsetTree {
    Expr(Expr),
    Param(Param),
    Block(Block),
    CaseOption(CaseOption),
    Query(Query),
}
