//! Names and facts from which tests are made.
#![tactic(auto)]

mod names;

pub use names::{kind, no_facts, reference, says};
