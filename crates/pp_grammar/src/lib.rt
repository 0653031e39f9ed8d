//! The grammar of manifests as a relation, and its laws.
#![tactic(auto)]

mod laws;

pub use laws::{reads_the_grammar, reads_the_templates};
