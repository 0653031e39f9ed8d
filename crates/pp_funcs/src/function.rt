//! The functions by name.
ghost use Rattle.std.specs.Prelude.{◌≡◌, map};
ghost use Rattle.pp_funcs.specs.Names.{function_of, function_named};

use pp_values::Text;

/// A function that needs neither site, log nor lambda.
#[derive(Clone, Copy)]
pub enum Function {
    Fail,
    Length,
    Size,
    Empty,
    Keys,
    Values,
    Join,
    Flatten,
    Unique,
    Upcase,
    Downcase,
    Strip,
    Dig,
    Min,
    Max,
    Abs,
}

/// Each of them with its name.
pub const FUNCTIONS: [(&str, Function); 16] = [
    ("fail", Function::Fail),
    ("length", Function::Length),
    ("size", Function::Size),
    ("empty", Function::Empty),
    ("keys", Function::Keys),
    ("values", Function::Values),
    ("join", Function::Join),
    ("flatten", Function::Flatten),
    ("unique", Function::Unique),
    ("upcase", Function::Upcase),
    ("downcase", Function::Downcase),
    ("strip", Function::Strip),
    ("dig", Function::Dig),
    ("min", Function::Min),
    ("max", Function::Max),
    ("abs", Function::Abs),
];

impl Function {
    /// The function that is written so, letter by letter.
    pub fn from_name(name: &Text) -> Option<Function>
        ensures { result ≡ function_of name.now }
    {
        named(&FUNCTIONS, name)
    }
}

fn named(table: &[(&str, Function)], name: &Text) -> Option<Function>
    ensures { result ≡ function_named (map (λ f. (f.0.now, f.1)) table.now) name.now }
{
    for (written, function) in table {
        if name.is(written) {
            return Some(*function);
        }
    }
    None
}
