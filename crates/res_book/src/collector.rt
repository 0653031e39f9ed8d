use pp_values::{Kind, Place, Reference};
use res_core::{Lines, QueryBox};

/// What takes declarations, as `File <| tag == 'a' |>` does.
#[derive(Drop)]
pub struct Collector {
    pub kind: Kind,
    pub query: QueryBox,
    pub at: Place,
    /// The number of what its code belongs to: its imports stand there.
    pub owner: u32,
    /// Whether it takes exported declarations alone, and those that other nodes export, as `File <<| |>>` does.
    pub exported: bool,
    /// What its block sets on each declaration that it takes.
    pub lines: Lines,
    /// The one declaration that it takes, where it comes from the function `realize`.
    pub realized: Option<Reference>,
}
