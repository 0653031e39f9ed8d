use crate::want::Want;
use crate::wants::Wants;
use pp_values::Reference;

/// What is done in a turn before signals count.
#[derive(Drop)]
pub enum Work {
    /// These properties are set right.
    Set(Wants),
    /// Something is run.
    Run,
    /// It is run unless this file has the property.
    RunUnless(Reference, Want),
    /// Nothing is.
    Idle,
}
