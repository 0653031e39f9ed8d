use pp_values::{Text, Value};

/// An attribute of a resource.
#[derive(Drop)]
pub struct Attribute {
    pub name: Text,
    pub value: Value,
}
