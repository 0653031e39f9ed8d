use pp_values::Items;

/// A list of places in another list, counted from 0.
pub type Indexes = Items<u32>;
