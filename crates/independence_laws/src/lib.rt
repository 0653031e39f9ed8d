//! Laws of evaluation in worlds that differ in what nothing reads; no code.
#![tactic(auto)]

mod parts;

pub use parts::{calls_leave_worlds_alike, later_is_the_same, parts_are_independent};
