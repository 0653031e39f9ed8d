//! The pieces of templates as a relation, and its laws.
#![tactic(auto)]

mod laws;

pub use laws::reads_the_pieces;
