//! The values of attributes: what a declaration, the override lines on it and the default statements make of them.
#![tactic(auto)]

mod changing;
mod counts;
mod default_key;
mod defaults;
mod faults;
mod fold;
mod gathering;
mod lines;
mod nearest;
mod numbers;
mod override_line;
mod overrides;
mod own;
mod rights;
mod scopes;
mod target;
mod testing;
mod ways;

pub use override_line::{OverrideLine, Right};
pub use overrides::Overrides;
pub use testing::is_value;
