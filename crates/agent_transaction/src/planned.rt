use crate::ready::Ready;

/// A resource that has a turn, by its index in the catalog.
#[derive(Drop)]
pub struct Planned {
    pub at: u32,
    pub ready: Ready,
}
