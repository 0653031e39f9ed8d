use crate::row::Row;
use std::sync::Arc;

/// Rows whose keys follow each other: at least one, and at most 64.
#[derive(Drop)]
pub struct Leaf<V: Drop> {
    pub rows: Vec<Arc<Row<V>>>,
}
