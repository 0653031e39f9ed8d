use pp_values::Reference;

/// A part that is to come back to the machine.
#[derive(Drop)]
pub struct Back<P> {
    pub what: Reference,
    pub part: Option<P>,
}
