//! Which texts are the names of variables.
ghost use Rattle.std.specs.Prelude.{◌≡◌};
ghost use Rattle.std.specs.List.{list_all};
ghost use Rattle.eval_calls.specs.VariableNames as spec;

/// Whether a name is that of a variable of one segment.
pub fn is_variable(name: &[u8]) -> bool
    ensures { result ≡ spec.is_variable name.now }
{
    match name {
        [] => false,
        [first, more @ ..] => begins_variable(*first) && all_go_on(more),
    }
}

fn all_go_on(bytes: &[u8]) -> bool
    ensures { result ≡ list_all spec.goes_on bytes.now }
{
    bytes.iter().all(|byte| goes_on(*byte))
}

fn begins_variable(byte: u8) -> bool
    ensures { result ≡ spec.begins_variable byte }
{
    byte.is_ascii_lowercase() || byte == b'_'
}

fn goes_on(byte: u8) -> bool
    ensures { result ≡ spec.goes_on byte }
{
    byte.is_ascii_alphanumeric() || byte == b'_'
}
