//! Laws of evaluation, over the definitions that the evaluator equals; no code.
#![tactic(auto)]

mod growth;

pub use growth::{all_is_placed, calls_only_add, extending, parts_only_add};
