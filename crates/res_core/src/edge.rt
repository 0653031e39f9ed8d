/// One resource comes before another, both by their index in the catalog.
#[derive(Clone, Copy, Debug, PartialEq, Eq)]
pub struct Edge {
    pub from: u32,
    pub to: u32,
    /// Whether `to` is refreshed where `from` has changed.
    pub signal: bool,
}
