/// What the replies of a round come to, over faults `F`.
#[derive(Drop)]
pub enum Outcome<F> {
    /// Each node was served.
    Whole,
    /// A compile was refused, made from the first `k` entries: the first one by its place among the nodes.
    Refused { place: usize, k: u32, fault: F },
    /// No compile was refused, and the history has as many entries as it may have.
    Full { length: u32 },
}
