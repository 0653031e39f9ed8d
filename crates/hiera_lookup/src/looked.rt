use crate::answer::Answers;
use pp_values::Value;

/// What a look-up found, and what was looked up within it.
#[derive(Drop)]
pub struct Looked {
    pub value: Option<Value>,
    pub answers: Answers,
}
