//! The steps of evaluation over values that are there already. It calls no evaluator.
#![tactic(auto)]

mod combining;
mod faults;
mod functions;
mod gathering;
mod reducing;
mod spreading;
mod testing;
mod texts;
mod truth;
mod turns;
mod type_values;

pub use combining::combine;
pub use faults::{bad_operand, wrong_arguments};
pub use functions::{Iteration, LAMBDA_FUNCTIONS, LambdaFunction};
pub use gathering::{decides, gather};
pub use reducing::{reduced_over, turn_of_with};
pub use spreading::{splice, spread};
pub use testing::{is_of, option_takes};
pub use texts::joined;
pub use truth::is_true;
pub use turns::{Turns, turns_of};
pub use type_values::type_value;
