/// How a resource is declared.
#[derive(Clone, Copy, Debug, PartialEq, Eq)]
pub enum Form {
    Plain,
    /// Behind `@`: it is in no catalog until a collector or `realize` takes it.
    Virtual,
    /// Behind `@@`: virtual, and offered to the other nodes.
    Exported,
}
