use pp_values::{Kind, Text};
use res_core::KnownNames;

/// A resource that passed the tests of its title and lines.
#[derive(Drop)]
pub struct Named {
    pub kind: Kind,
    pub title: Text,
    /// The attributes that its kind takes besides the metaparameters.
    pub known: KnownNames,
}
