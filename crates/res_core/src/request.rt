use pp_values::{Text, Value};

/// A node asks for its catalog.
#[derive(Drop)]
pub struct CompileRequest {
    pub node: Text,
    /// The node's facts. With none those count that the site lists for the node.
    pub facts: Option<Value>,
    /// How many entries of the site's history whoever asks has heard of. A history that is shorter refuses the request.
    pub seen: u32,
}

/// What a site is asked for.
#[derive(Drop)]
pub enum Request {
    Compile(CompileRequest),
    /// The node is gone, so what it exported goes too.
    Deactivate(Text),
}
