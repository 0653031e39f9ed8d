use crate::expr::Expr;
use pp_values::{Items, Text};

/// The parameters of a class, a define or a lambda: `Integer $a, $b = 1`.
pub type Params = Items<Param>;

/// A parameter: `Integer $a = 1`. The kind is the expression before the name, the name stands without its `$`.
#[derive(Drop)]
pub struct Param<E = Expr> {
    pub kind: Option<E>,
    pub name: Text,
    pub default: Option<E>,
    pub at: u32,
}
