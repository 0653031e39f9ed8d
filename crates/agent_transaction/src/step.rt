use pp_values::Text;

/// What became of one property, or of what was to be run.
#[derive(Drop)]
pub enum Step {
    /// Nothing had to be done.
    Kept,
    /// This was changed, or would have been.
    Changed(Text),
    /// This call failed.
    Failed(Text),
    /// There was no memory for a write.
    Memory,
}
