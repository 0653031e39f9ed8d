use pp_values::Text;

/// What a new scope is for.
#[derive(Debug, Drop)]
pub enum ScopeKind {
    /// The node's definition. Classes and instances read it before top scope, those entered earlier too.
    Node,
    /// The body of the class of this name, in any case of its ASCII letters, without a leading `::`.
    Class(Text),
    /// One instance of a define.
    Instance,
    /// One call of a lambda.
    Lambda,
}
