use pp_values::Text;

/// What the code of a body belongs to, before it has a scope.
#[derive(Drop)]
pub struct BodyOwner {
    /// The path of the file that the code stands in.
    pub file: Text,
    /// The source of what it declares: `class C`, `define D` or `node`.
    pub source: Text,
    /// The number of the declaration that contains what it declares.
    pub resource: u32,
}
