//! A lock round a value that stands for a list of entries: what each pass has seen is a front of the one list.
#![tactic(auto)]

mod bells;
mod laws;
mod lock;
mod pass;
mod rule;
mod stands_for;
mod turn;
mod view;

pub use laws::closes_once_all_are_joined;
pub use lock::HistLock;
pub use pass::{Note, Pass};
pub use stands_for::StandsFor;
pub use turn::Turn;
