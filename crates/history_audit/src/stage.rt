use export_store::Version;
use std::sync::Arc;

/// What some entries come to: the site in force and the exported sets after them.
#[derive(Drop)]
pub struct Stage<S> {
    pub site: Arc<S>,
    pub version: Version,
}
