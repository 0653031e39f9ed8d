//! The operators of the language over values that are there already.
#![tactic(auto)]

mod accessing;
mod applying;
mod hashing;
mod key_index;
mod listing;
mod membership;
mod numbers;
mod op;
mod refusal;
mod sameness;

pub use accessing::{copy_or_undef, member_at};
pub use applying::apply_op;
pub use listing::extended;
pub use op::Op;
pub use sameness::is_same;
