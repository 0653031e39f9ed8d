//! The functions of the language that need neither site, log nor lambda.
#![tactic(auto)]

mod calling;
mod counting;
mod digging;
mod evaluated;
mod flattening;
mod function;
mod listing;
mod numbers;
mod refusal;
mod repeats;
mod seen;
mod stripping;
mod texting;

pub use calling::{call_pure, call_pure_of};
pub use evaluated::{EVALUATED, needs_evaluator};
pub use function::{FUNCTIONS, Function};
pub use seen::{Seen, is_new};
pub use texting::joined;
