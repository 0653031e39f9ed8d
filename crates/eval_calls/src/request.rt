use hiera_merge::Merge;
use pp_values::{Texts, Value};

/// What a call of `lookup` gives beside its keys. Contracts see what it says by `options_seen`.
#[derive(Clone, Copy)]
pub struct Options<'a> {
    /// The data type that the value is to be of, where one is given: a type, or a reference.
    pub of_type: Option<&'a Value>,
    pub merge: Option<Merge>,
    pub default: Option<&'a Value>,
}

/// What a call of `lookup` asks for. Contracts see what it says by `request_seen`.
#[derive(Drop)]
pub struct Request<'a> {
    pub keys: Texts,
    pub options: Options<'a>,
}
