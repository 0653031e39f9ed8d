use pp_tree::{Block, Expr, Reference, Words};

/// What is evaluated one level further in. A block, a class body and an instance come with the line at which they are
/// refused where they stand too deep: that of the expression, statement or definition that they belong to.
#[derive(Clone, Copy)]
pub enum Goal<'t> {
    /// An expression.
    Value(&'t Expr),
    /// The statements of a block.
    Block(&'t Block, u32),
    /// A call without parentheses.
    Words(&'t Words),
    /// The target of an override.
    Target(&'t Reference),
    /// The body of a class, by the number of its declaration.
    Class(u32, u32),
    /// An instance of a define, by the number of its declaration.
    Instance(u32, u32),
}
