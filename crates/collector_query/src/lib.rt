//! Which resources the query of a collector matches.
#![tactic(auto)]

mod matching;
mod needing;
mod reading;

pub use matching::matches;
pub use needing::needed_tag;
pub use reading::reads_attributes;
