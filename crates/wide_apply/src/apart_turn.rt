use agent_transaction::Ready;

/// A turn that is taken apart from the others of its wave.
#[derive(Drop)]
pub struct ApartTurn<P> {
    pub at: u32,
    pub ready: Ready,
    pub is_signalled: bool,
    /// None where the resource is skipped.
    pub part: Option<P>,
}
