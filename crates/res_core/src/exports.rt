use crate::exported::Exported;
use pp_values::Items;

/// Exported resources, in the order of declaration.
pub type Exports = Items<Exported>;
