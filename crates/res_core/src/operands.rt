use crate::operand::Operand;
use pp_values::Items;

/// What stands at one end of a relation, in the order in which it is written.
pub type Operands = Items<Operand>;
