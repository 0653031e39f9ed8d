//! A catalog is applied to a machine by waves: all resources that are ready have their turns at once.
#![tactic(auto)]

mod apart_turn;
mod applying;
mod back;
mod begun;
mod filed;
mod laws;
mod share;
mod sharing;
mod taken_turn;
mod taking;
mod waves;

pub use applying::run_wide;
pub use laws::{a_wide_report_says_what_was_done, there_is_a_told_run_by_waves, waves_are_the_run};
