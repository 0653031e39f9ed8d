//! The tree of a manifest, as it is written: plain data, so that a contract can say that a tree is what a definition computes.
#![tactic(auto)]

mod collector;
mod conditions;
mod definition;
mod expr;
mod file;
mod manifest_file;
mod operators;
mod param;
mod resource;
mod rows;
mod statement;
mod table;
mod template;

pub use collector::{Collector, Comparison, Conjunction, Query, Test};
pub use conditions::{Case, CaseOption, Elsif, If, Unless};
pub use definition::{Class, Define, Definition, Function, Name, Node, NodeName};
pub use expr::{Args, Call, Expr, Form, Lambda, Operation, Pair, Piece, Postfix};
pub use file::File;
pub use manifest_file::ManifestFile;
pub use operators::{BinaryOperator, PrefixOperator};
pub use param::{Param, Params};
pub use resource::{
    Attribute, Attributes, Body, Defaults, Override, Reference, Resource, ResourceForm, Setting,
    Splat,
};
pub use statement::{Arrow, Block, Chain, Link, Operand, Statement, Words};
pub use table::{DefinitionName, Table, TableStop, table_of};
pub use template::Template;
