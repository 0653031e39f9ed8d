//! The data types that are compared: those that were given, and those that a rule makes of them.
use pp_values::{PType, Reference};

/// A data type that was given, or one that a rule makes.
#[derive(Clone, Copy)]
pub enum Seen<'a> {
    Given(&'a PType),
    /// `Variant[Undef, T]`
    OrUndef(&'a Seen<'a>),
    /// The type of a reference's kind and title.
    Reference(&'a Reference),
    Any,
    Undef,
    Boolean,
    Integer,
    String,
    Array,
    Hash,
    Data,
}
