use crate::expr::Expr;
use crate::param::Params;
use crate::statement::Block;
use pp_values::{Items, Text};

/// The name of a class, a define or a function, as it is written, and its line.
#[derive(Drop)]
pub struct Name {
    pub text: Text,
    pub at: u32,
}

/// `class a($b) inherits c { }`
#[derive(Drop)]
pub struct Class {
    pub name: Name,
    pub params: Params,
    pub inherits: Option<Name>,
    pub block: Block,
    pub at: u32,
}

/// `define a($b) { }`
#[derive(Drop)]
pub struct Define {
    pub name: Name,
    pub params: Params,
    pub block: Block,
    pub at: u32,
}

/// `function f(Integer $n) >> Integer { $n * 2 }`. The type of what it gives stands behind `>>`.
#[derive(Drop)]
pub struct Function {
    pub name: Name,
    pub params: Params,
    pub return_type: Option<Expr>,
    pub block: Block,
    pub at: u32,
}

/// `node 'a', default { }`
#[derive(Drop)]
pub struct Node {
    pub names: Items<NodeName>,
    pub block: Block,
    pub at: u32,
}

/// A name of a node definition, as it is written, or none for `default`.
#[derive(Drop)]
pub struct NodeName {
    pub name: Option<Text>,
    pub at: u32,
}

/// A definition at the top of a file.
#[derive(Drop)]
pub enum Definition {
    Class(Class),
    Define(Define),
    Function(Function),
    Node(Node),
    /// In a table alone: a further name of the node definition that stands under this first name.
    SameNode(Option<Text>),
}
