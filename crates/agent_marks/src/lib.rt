//! Marks on resources that spread to what comes after them.
#![tactic(auto)]

mod arrows;
mod leveling;
mod levels;
mod marks;
mod room;
mod sequence;
mod spreading;

pub use levels::Levels;
pub use marks::Marks;
pub use room::push_ready;
