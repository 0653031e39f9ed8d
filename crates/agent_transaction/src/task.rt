use crate::work::Work;
use pp_values::Reference;

/// What the turn of a resource has to do.
#[derive(Drop)]
pub struct Task {
    pub what: Reference,
    /// The machine is only asked, and nothing is changed.
    pub noop: bool,
    /// Whether signals refresh it.
    pub refreshes: bool,
    pub work: Work,
}
