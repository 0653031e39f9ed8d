use crate::held::Held;
use pp_values::Items;

/// The resources of a catalog. A resource's place in this list is its index.
pub type HeldList = Items<Held>;
