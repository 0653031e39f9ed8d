//! The strict reader of journals: of a history's text, in either version of its form.
#![tactic(auto)]

mod cuts;
mod entries;
mod exports;
mod facts;
mod laws;
mod opening_lines;
mod reading;
mod sites;

pub use laws::{first_journals_are_told_apart, journals_are_told_apart};
pub use reading::read_journal;
