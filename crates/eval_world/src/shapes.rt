//! What shows in how an expression is written.
ghost use Rattle.std.specs.Prelude.{◌≡◌};
ghost use Rattle.std.specs.Option.{option_copied};
ghost use Rattle.eval_world.specs.Shapes as spec;

use pp_tree::{Expr, Form, PrefixOperator};

/// Whether an expression is written with `*`.
pub fn is_splat(expr: &Expr) -> bool
    ensures { result ≡ spec.is_splat expr.now }
{
    match expr.form.get() {
        Form::Prefix(PrefixOperator::Splat, _) => true,
        _ => false,
    }
}

/// Whether an expression is the word `default`.
pub fn is_default(expr: &Expr) -> bool
    ensures { result ≡ spec.is_default expr.now }
{
    match expr.form.get() {
        Form::Default => true,
        _ => false,
    }
}

/// The one of a list of one.
pub fn only<T>(items: &[T]) -> Option<&T>
    ensures { option_copied result ≡ spec.only items.now }
{
    match items {
        [item] => Some(item),
        _ => None,
    }
}
