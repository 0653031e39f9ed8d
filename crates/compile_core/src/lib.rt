//! What a site means for a node: the catalog and what the node exports, or the first fault. And what its data have for
//! a key.
#![tactic(auto)]

mod compiling;
mod language;
mod laws;
mod looking_up;

pub use compiling::compile;
pub use language::PuppetLanguage;
pub use laws::no_cycle_is_meant;
pub use looking_up::look_up;
