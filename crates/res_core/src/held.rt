use crate::indexes::Indexes;
use crate::plain_resource::PlainResource;

/// A resource in a catalog.
#[derive(Drop)]
pub struct Held {
    pub item: PlainResource,
    /// The indexes of the resources that contain it directly, rising.
    pub inside: Indexes,
}
