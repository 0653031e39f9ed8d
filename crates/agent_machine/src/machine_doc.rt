use crate::failing_texts::FailingTexts;
use crate::states::States;

/// What is recorded of a machine, and which calls on it fail, by their texts.
#[derive(Drop)]
pub struct MachineDoc {
    pub failing: FailingTexts,
    pub state: States,
}
