//! Requests to a site that are answered one after another, over any language.
#![tactic(auto)]

mod laws;
mod sequence;

pub use laws::{
    one_worker_has_one_result, publications_are_made_in_turn, replies_name_entries,
    results_are_determined, turns_are_whole,
};
pub use sequence::{SequenceResult, answer, run_sequence};
