//! Laws of collectors and rounds, over the definitions that the evaluator equals; no code.
#![tactic(auto)]

mod second_looks;

pub use second_looks::{
    a_look_concerns_no_other, a_second_import_finds_nothing, a_second_look_finds_nothing,
};
