//! The evaluator: what each form of the language gives, within one another to any lawful depth.
#![tactic(auto)]

mod chain_end;
mod chains;
mod classes;
mod evaluator;
mod knot;
mod nodes;
mod postfixes;
mod running;
mod starting;
mod statements;
mod top_names;
mod type_names;

pub use evaluator::{Evaluator, GREATEST_DEPTH};
pub use starting::top_scopes;
