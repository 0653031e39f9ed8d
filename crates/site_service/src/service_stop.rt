/// Why no further connection was taken.
#[derive(Clone, Copy, Debug, PartialEq, Eq)]
pub enum ServiceStop {
    /// As many were taken as were wanted.
    Counted,
    /// The listener has no more to give.
    Closed,
    /// The listener failed: it could not listen, or gave no connection.
    NetFault,
}
