//! The forms of expressions that are no calls. Each is a function of its own, which is given what evaluates the parts
//! that stand one level further in.
#![tactic(auto)]

mod accesses;
mod answering;
mod assigning;
mod cases;
mod chains;
mod conditions;
mod growing;
mod keyed_pairs;
mod literals;
mod operator_kind;
mod prefixes;
mod selectors;
mod types;

pub use accesses::{accessed, lent};
pub use assigning::assigned;
pub use cases::case_of;
pub use chains::binary;
pub use conditions::{if_of, unless_of};
pub use literals::{hash, interpolated, list};
pub use prefixes::prefix;
pub use selectors::selected;
pub use types::type_of;
