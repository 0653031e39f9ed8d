use pp_values::{Text, Value};

/// What the arguments of `epp` or `inline_epp` ask for: a text, and the hash behind it, where there is one.
#[derive(Clone, Copy)]
pub struct Asked<'a> {
    pub text: &'a Text,
    pub given: Option<&'a Value>,
}
