/// What a machine answers to whether a property has a value, and to a refresh.
#[derive(Clone, Copy, Debug, PartialEq, Eq)]
pub enum Holds {
    /// It has, or the refresh is done.
    Yes,
    No,
    Failed,
}
