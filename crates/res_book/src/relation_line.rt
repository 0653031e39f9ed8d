use pp_values::Place;
use res_core::Operands;

/// A relation as it is written: all that stands on the left comes before all that stands on the right.
#[derive(Debug, Drop)]
pub struct RelationLine {
    pub left: Operands,
    pub right: Operands,
    /// Whether what stands on the right is refreshed where something on the left has changed.
    pub signal: bool,
    pub at: Place,
}
