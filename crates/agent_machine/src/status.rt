/// What became of a resource.
#[derive(Clone, Copy, Debug, PartialEq, Eq)]
pub enum Status {
    /// Nothing had to be changed.
    Unchanged,
    Changed,
    /// A call failed. What was changed before it stays changed.
    Failed,
    /// A resource before it failed, and so it was not looked at.
    Skipped,
    /// Something would have been changed, but the resource is only looked at.
    Noop,
}
