//! The functions that take a lambda, by name.
ghost use Rattle.std.specs.Prelude.{◌≡◌, map};
ghost use Rattle.expr_eval.specs.Names.{lambda_function, function_named, name};

use pp_values::Text;

/// A function that goes through a list or a hash, and calls its lambda with one member or pair after another.
#[derive(Clone, Copy)]
pub enum Iteration {
    Each,
    Map,
    Filter,
    Any,
    All,
}

/// A function that takes a lambda.
#[derive(Clone, Copy)]
pub enum LambdaFunction {
    Iterate(Iteration),
    Reduce,
    With,
}

/// Each of them with its name.
pub const LAMBDA_FUNCTIONS: [(&str, LambdaFunction); 7] = [
    ("each", LambdaFunction::Iterate(Iteration::Each)),
    ("map", LambdaFunction::Iterate(Iteration::Map)),
    ("filter", LambdaFunction::Iterate(Iteration::Filter)),
    ("reduce", LambdaFunction::Reduce),
    ("any", LambdaFunction::Iterate(Iteration::Any)),
    ("all", LambdaFunction::Iterate(Iteration::All)),
    ("with", LambdaFunction::With),
];

impl Iteration {
    pub fn name(self) -> &'static str
        ensures { result.now ≡ name self }
    {
        match self {
            Iteration::Each => "each",
            Iteration::Map => "map",
            Iteration::Filter => "filter",
            Iteration::Any => "any",
            Iteration::All => "all",
        }
    }
}

impl LambdaFunction {
    /// The function that is written so, letter by letter.
    #[tactic(auto, unfolding(crate::specs::Names::lambda_function))]
    pub fn from_name(name: &Text) -> Option<LambdaFunction>
        ensures { result ≡ lambda_function name.now }
    {
        named(&LAMBDA_FUNCTIONS, name)
    }
}

fn named(table: &[(&str, LambdaFunction)], name: &Text) -> Option<LambdaFunction>
    ensures { result ≡ function_named (map (λ f. (f.0.now, f.1)) table.now) name.now }
{
    for (written, function) in table {
        if name.is(written) {
            return Some(*function);
        }
    }
    None
}
