/// Names a scope of some `Scopes`. The top one has number 0.
#[derive(Clone, Copy, Debug, PartialEq, Eq)]
pub struct ScopeId {
    pub number: u32,
}

impl ScopeId {
    /// Top scope.
    pub const TOP: ScopeId = ScopeId { number: 0 };
}
