//! Requests to a site that workers share out, over any language.
#![tactic(auto)]

mod answered;
mod batch;
mod finished;
mod gather;
mod order;
mod worker;

pub use batch::{BatchResult, MOST_WORKERS, resume_batch, run_batch};
