/// What a machine answers to a write.
#[derive(Clone, Copy, Debug, PartialEq, Eq)]
pub enum Wrote {
    Done,
    Failed,
    /// There is no memory, and the machine is as it was.
    Memory,
}
