use pp_tree::{Expr, Postfix};
use pp_values::Items;

/// What was read of an expression already: a value, and what followed it so far.
#[derive(Drop)]
pub struct Started {
    pub base: Expr,
    pub postfixes: Items<Postfix>,
}
