//! Laws of rounds, over the definitions that the evaluator equals; no code.
#![tactic(auto)]

mod rounds;

pub use rounds::{needless_looks_change_nothing, rounds_only_add};
