/// Why a request asks nothing of the site.
#[derive(Clone, Copy, Debug, PartialEq, Eq)]
pub enum Refusal {
    /// The path names nothing.
    Path,
    /// What it names takes another method.
    Method,
    /// The field `Site-Seen` is no number.
    Seen,
    /// The body gives no facts.
    Facts,
    /// The body says no site.
    Site,
    /// The body says no report of the node.
    Report,
}
