use crate::expr::Expr;
use crate::statement::Statement;
use pp_values::{Boxed, Items};

/// `if $a { } elsif $b { } else { }`
#[cycle(tree)]
#[derive(Drop)]
pub struct If {
    pub condition: Expr,
    pub block: Items<Statement>,
    pub elsifs: Items<Elsif>,
    pub otherwise: Option<Items<Statement>>,
}

/// `elsif $b { }`
#[cycle(tree)]
#[derive(Drop)]
pub struct Elsif {
    pub condition: Expr,
    pub block: Items<Statement>,
}

/// `unless $a { } else { }`
#[cycle(tree)]
#[derive(Drop)]
pub struct Unless {
    pub condition: Expr,
    pub block: Items<Statement>,
    pub otherwise: Option<Items<Statement>>,
}

/// `case $a { 1, 2: { } default: { } }`
#[cycle(tree)]
#[derive(Drop)]
pub struct Case {
    pub control: Boxed<Expr>,
    pub options: Items<CaseOption>,
}

/// An option of a case: `1, 2: { }`.
#[cycle(tree)]
#[derive(Drop)]
pub struct CaseOption {
    pub values: Items<Expr>,
    pub block: Items<Statement>,
    pub at: u32,
}
