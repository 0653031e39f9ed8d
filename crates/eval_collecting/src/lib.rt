//! What collectors take: local declarations, and resources that other nodes export.
#![tactic(auto)]

mod blocks;
mod importing;
mod matching;
mod references;

pub use importing::{import_match, imports, needed_tag};
pub use matching::{local_match, realized};
