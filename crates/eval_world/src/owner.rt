use pp_values::Text;

/// What the code belongs to that is evaluated: the main manifest's statements, the body of a node, a class or an instance,
/// or what stands in top scope in another file, as functions do.
#[derive(Debug, Drop)]
pub struct Owner {
    /// The path of the file that the code stands in.
    pub file: Text,
    /// The source of what it declares: `class C`, `define D` or `node`.
    pub source: Text,
    /// The number of the declaration that contains what it declares.
    pub resource: u32,
    /// The number of its scope. Those of lambdas within it count as this one for what is declared.
    pub scope: u32,
}
