use pp_values::{Place, Text, Value};

/// A template that a call renders: its text, and what is given to it.
#[derive(Clone, Copy)]
pub struct Rendering<'t> {
    /// The path of the file that it stands in.
    pub file: &'t Text,
    pub text: &'t Text,
    /// The hash that is given, where one is.
    pub given: Option<&'t Value>,
    /// The name of the function that is called, by which faults name what it does not take.
    pub function: &'t Text,
    /// Where it is called.
    pub at: &'t Place,
}
