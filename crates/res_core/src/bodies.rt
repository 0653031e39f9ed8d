use crate::body::Body;
use pp_values::Items;

/// The bodies of a resource expression, in order.
pub type Bodies = Items<Body>;
