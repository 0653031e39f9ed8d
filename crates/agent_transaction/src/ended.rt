use pp_values::Text;

/// How the calls of a turn ended.
#[derive(Drop)]
pub enum Ended {
    /// All were made.
    Whole,
    /// This one failed.
    Failed(Text),
    /// There was no memory for a write.
    Memory,
}
