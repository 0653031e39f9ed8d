use pp_values::Reference;

/// What stands at one end of a relation.
#[derive(Debug, Drop)]
pub enum Operand {
    One(Reference),
    /// All that a collector takes, by its number in the order of registration.
    All(u32),
}
