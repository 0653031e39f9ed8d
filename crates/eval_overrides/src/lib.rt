//! Statements on resources that are declared elsewhere: overrides and default statements.
#![tactic(auto)]

mod defaults;
mod overrides;

pub use defaults::defaults_of;
pub use overrides::{override_of, target_of};
