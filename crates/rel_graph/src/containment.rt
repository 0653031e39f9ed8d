use pp_values::Items;

/// A resource contains another one directly, both by their index.
#[derive(Clone, Copy, Debug, PartialEq, Eq)]
pub struct Containment {
    pub container: u32,
    pub member: u32,
}

/// Which resources contain which, directly.
pub type Containers = Items<Containment>;
