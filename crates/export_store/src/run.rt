use crate::leaf::Leaf;
use std::sync::Arc;

/// Leaves that follow each other: at least one, and at most 64.
#[derive(Drop)]
pub struct Run<V: Drop> {
    pub leaves: Vec<Arc<Leaf<V>>>,
}
