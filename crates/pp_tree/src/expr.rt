ghost use Rattle.std.specs.Prelude.{◌≡◌, IfOk};

use crate::conditions::{Case, If, Unless};
use crate::operators::{BinaryOperator, PrefixOperator};
use crate::param::Param;
use crate::statement::Statement;
use pp_values::{Boxed, Items, Memory, Text};
use std::alloc::Global;

/// The arguments of a call, of an access or of a type: `1, $a` in `f(1, $a)`.
pub type Args = Items<Expr>;

/// An expression, as `$a + 1`, at the line of its first token.
#[cycle(tree)]
#[derive(Drop)]
pub struct Expr {
    pub at: u32,
    pub form: Boxed<Form>,
}

impl Expr {
    ghost use Rattle.pp_tree.specs.Building.{expr_at};

    pub fn new(alloc: Global, at: u32, form: Form) -> Result<Expr, Memory>
        ensures { IfOk result (λ x. x ≡ expr_at at form) }
    {
        Ok(Expr {
            at,
            form: Boxed::new(alloc, form)?,
        })
    }
}

/// What an expression is.
#[cycle(tree)]
#[derive(Drop)]
pub enum Form {
    /// `undef`
    Undef,
    /// `true` or `false`
    Flag(bool),
    /// `default`
    Default,
    /// `42`, `0x2A` or `052`
    Number(i64),
    /// `'a'`, or `"a"` with nothing to interpolate: the text without quotes and escapes.
    Text(Text),
    /// `present` or `ntp::server`, as it is written.
    Name(Text),
    /// `"a${b}c"`
    Interpolated(Items<Piece<Expr>>),
    /// `$a` or `$::a::b`: the name after `$`, as it is written.
    Variable(Text),
    /// `Integer` or `Ntp::Server`, as it is written.
    Type(Text),
    /// `[1, 2]`
    List(Items<Expr>),
    /// `{ a => 1, b => 2 }`
    Hash(Items<Pair<Expr>>),
    /// `($a)`
    Parentheses(Expr),
    /// `f(1)`
    Call(Boxed<Call>),
    /// `if $a { } else { }`
    If(Boxed<If>),
    /// `unless $a { }`
    Unless(Boxed<Unless>),
    /// `case $a { 1: { } }`
    Case(Case),
    /// `$a[1].f(2)`: what stands first, and what follows it.
    Postfix(Boxed<Expr>, Items<Postfix>),
    /// `!$a`
    Prefix(PrefixOperator, Expr),
    /// `$a + 1 - $b`: the first operand, and the operations of one strength after it.
    Binary(Boxed<Expr>, Items<Operation<Expr>>),
    /// `$a = 1`: the name after `$`, and the value.
    Assign(Boxed<Text>, Expr),
}

/// A piece of a text with interpolation: `a` and `${b}` in `"a${b}"`.
#[derive(Drop)]
pub enum Piece<E = Expr> {
    Text(Text),
    Value(E),
}

/// A pair of a hash or an option of a selector: `a => 1`.
#[derive(Drop)]
pub struct Pair<E = Expr> {
    pub key: E,
    pub value: E,
}

/// An operator and its right operand: `+ 1` in `$a + 1`.
#[derive(Drop)]
pub struct Operation<E = Expr> {
    pub operator: BinaryOperator,
    pub right: E,
}

/// What follows a value and binds tightest.
#[cycle(tree)]
#[derive(Drop)]
pub enum Postfix {
    /// `[1]` in `$a[1]`
    Access(Items<Expr>),
    /// `.f(2)` in `$a.f(2)`
    Method(Boxed<Call>),
    /// `? { 1 => 'a', default => 'b' }`
    Select(Items<Pair<Expr>>),
}

/// A call: `f(1) |$x| { }`.
#[cycle(tree)]
#[derive(Drop)]
pub struct Call {
    pub function: Text,
    pub args: Items<Expr>,
    pub lambda: Option<Boxed<Lambda>>,
}

/// A lambda: `|$x| { }`.
#[cycle(tree)]
#[derive(Drop)]
pub struct Lambda {
    pub params: Items<Param<Expr>>,
    pub block: Items<Statement>,
}
