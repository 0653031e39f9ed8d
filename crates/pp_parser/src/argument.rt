use pp_tree::{Expr, Name};

/// What stands next behind a statement function that is called without parentheses.
#[derive(Drop)]
pub enum WordArgument {
    Argument(Expr),
    /// A name that `{` follows. It is no argument, and begins the resource that is the next statement.
    Pending(Name),
}
