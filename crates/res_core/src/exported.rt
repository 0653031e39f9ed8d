use crate::plain_resource::PlainResource;
use pp_values::Place;

/// A resource that a node exports.
#[derive(Drop)]
pub struct Exported {
    /// Where the exporting node's manifest declares it.
    pub node_place: Place,
    pub item: PlainResource,
}
