use pp_values::Kind;
use res_core::KnownNames;

/// A kind of resource that may be declared.
#[derive(Drop)]
pub struct KnownKind {
    pub kind: Kind,
    /// The attributes that it takes besides the metaparameters.
    pub known: KnownNames,
}
