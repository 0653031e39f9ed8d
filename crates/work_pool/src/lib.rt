//! Work that threads share: numbers that each go to one of them, and jobs that run side by side.
#![tactic(auto)]

mod apart;
mod claims;
mod groups;
mod jobs;
mod rule;
mod run;
mod side;
mod stack;
mod supply;
mod view;

pub use claims::{ClaimSeat, Claims};
pub use jobs::{Job, WaitingJob};
pub use run::{run_all, run_waiting};
pub use stack::{STACK_SIZE, on_large_stack};
pub use supply::{Supply, run_supplied};
