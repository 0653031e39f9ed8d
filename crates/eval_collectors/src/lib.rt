//! What registers collectors: collector statements, and the function `realize`.
#![tactic(auto)]

mod collecting;
mod laws;
mod queries;

pub use collecting::{collector, realize};
pub use laws::levels_only_refuse;
