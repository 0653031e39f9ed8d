use crate::expr::Expr;
use crate::resource::Attribute;
use pp_values::{Items, Text};

/// `File <| tag == 'a' |> { mode => '0644' }`, or with `<<|` and `|>>` where `exported` is true.
#[cycle(tree)]
#[derive(Drop)]
pub struct Collector {
    pub kind: Text,
    pub exported: bool,
    pub query: Option<Query>,
    pub attributes: Items<Attribute<Expr>>,
    pub at: u32,
}

/// Conjunctions with `or` between them: `tag == 'a' and title != 'x' or tag == 'b'`.
#[cycle(tree)]
#[derive(Drop)]
pub struct Query {
    pub conjunctions: Items<Conjunction>,
}

/// Tests with `and` between them: `tag == 'a' and title != 'x'`.
#[cycle(tree)]
#[derive(Drop)]
pub struct Conjunction {
    pub tests: Items<Test>,
}

/// A test of a query.
#[cycle(tree)]
#[derive(Drop)]
pub enum Test {
    Compare(Comparison<Expr>),
    /// `(tag == 'a' or tag == 'b')`
    Query(Query),
}

/// `tag == 'a'`, or `tag != 'a'` where `equal` is false.
#[derive(Drop)]
pub struct Comparison<E = Expr> {
    pub word: Text,
    pub equal: bool,
    pub at: u32,
    pub value: E,
}
