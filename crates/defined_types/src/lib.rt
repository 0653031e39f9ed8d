//! Rounds: what collectors take, and the instances of defines, until a round adds nothing.
#![tactic(auto)]

mod imports;
mod instances;
mod rounds;
mod watchlist;

pub use rounds::{ROUND_LIMIT, run_rounds};
