/// A bound of a data type, as it was written. `default` means none.
#[derive(Clone, Copy, Debug, PartialEq, Eq)]
pub enum Bound {
    Default,
    Number(i64),
}

/// The bounds of a data type, as they were written: none, the least one alone, or both.
#[derive(Clone, Copy, Debug, PartialEq, Eq)]
pub enum Bounds {
    Omitted,
    Least(Bound),
    Both(Bound, Bound),
}
