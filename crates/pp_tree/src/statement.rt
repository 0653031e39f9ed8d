use crate::collector::Collector;
use crate::expr::Expr;
use crate::resource::{Defaults, Override, Resource};
use pp_values::{Boxed, Items, Text};

/// Statements in braces, or those of a file.
pub type Block = Items<Statement>;

/// A statement that may stand in a block.
#[cycle(tree)]
#[derive(Drop)]
pub enum Statement {
    Chain(Chain<Operand>),
    Words(Boxed<Words<Expr>>),
    /// In a template alone: text that stands outside of its tags, and is emitted.
    Emit(Text),
    /// In a template alone: `<%= $a %>`, whose value is emitted.
    EmitValue(Expr),
}

/// Operands with arrows between them: `A['x'] -> B['y']`. An operand alone is a chain without links.
#[derive(Drop)]
pub struct Chain<O = Operand> {
    pub first: O,
    pub links: Items<Link<O>>,
    pub at: u32,
}

/// An arrow and the operand after it: `-> B['y']`.
#[derive(Drop)]
pub struct Link<O = Operand> {
    pub arrow: Arrow,
    pub operand: O,
}

/// An arrow between operands of a chain.
#[derive(Clone, Copy, Debug, PartialEq, Eq)]
pub enum Arrow {
    /// `->`
    InEdge,
    /// `~>`
    InEdgeSub,
    /// `<-`
    OutEdge,
    /// `<~`
    OutEdgeSub,
}

/// What stands between arrows, or alone.
#[cycle(tree)]
#[derive(Drop)]
pub enum Operand {
    /// `A['x']`
    Expr(Expr),
    /// `file { 'x': }`
    Resource(Boxed<Resource<Expr>>),
    /// `File <| |>`
    Collector(Boxed<Collector>),
    /// `File['x'] { mode => '0644' }`
    Override(Boxed<Override<Expr>>),
    /// `File { mode => '0644' }`
    Defaults(Boxed<Defaults<Expr>>),
}

/// A statement function and its arguments without parentheses: `include a, b`.
#[derive(Drop)]
pub struct Words<E = Expr> {
    pub function: Text,
    pub args: Items<E>,
    pub at: u32,
}
