//! The functions that are the evaluator's.
ghost use Rattle.std.specs.Prelude.{◌≡◌, map};
ghost use Rattle.pp_funcs.specs.Names.{needs_evaluator, is_listed};

use pp_values::Text;

/// The functions that need the site, the log, a template or a lambda.
pub const EVALUATED: [&str; 19] = [
    "include",
    "contain",
    "require",
    "realize",
    "lookup",
    "epp",
    "inline_epp",
    "debug",
    "info",
    "notice",
    "warning",
    "err",
    "each",
    "map",
    "filter",
    "reduce",
    "any",
    "all",
    "with",
];

/// Whether the function needs the site, the log, a template or a lambda.
pub fn needs_evaluator(name: &Text) -> bool
    ensures { result ≡ needs_evaluator name.now }
{
    is_listed(&EVALUATED, name)
}

fn is_listed(table: &[&str], name: &Text) -> bool
    ensures { result ≡ is_listed (map (λ n. n.now) table.now) name.now }
{
    for written in table {
        if name.is(written) {
            return true;
        }
    }
    false
}
