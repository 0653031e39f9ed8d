use pp_values::Text;

/// What a log function of the language wrote.
#[derive(Debug, Drop)]
pub struct LogLine {
    /// The function's name, such as `notice`.
    pub level: Text,
    pub text: Text,
}
