use crate::run::Run;
use std::sync::Arc;

/// The runs of a table.
#[derive(Drop)]
pub struct Root<V: Drop> {
    pub runs: Vec<Arc<Run<V>>>,
}
