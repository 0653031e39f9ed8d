use export_store::Version;
use std::sync::Arc;

/// What a compile sees of a history: the site and the exported sets after its first `k` entries.
#[derive(Drop)]
pub struct Snapshot<S> {
    pub k: u32,
    pub site: Arc<S>,
    pub version: Version,
}
