//! Calls of functions, with and without a lambda, and calls of lambdas.
#![tactic(auto)]

mod asked;
mod calls;
mod functions;
mod iterating;
mod lambdas;
mod looking_up;
mod names;
mod plain;
mod realizing;
mod rendering;
mod request;
mod requests;
mod templates;
mod templating;
mod turn_queue;
mod variable_names;

pub use calls::{call, method, words};
pub use templates::pairs_within;
pub use variable_names::is_variable;
