//! What data types accept and include, and which type a name with arguments is.
#![tactic(auto)]

mod acceptance;
mod arguments;
mod choices;
mod data;
mod data_type;
mod data_values;
mod inclusion;
mod laws;
mod layer;
mod lengths;
mod making;
mod naming;
mod range;
mod refusal;
mod sameness;
mod seen;
mod undef;

pub use acceptance::accepts;
pub use arguments::title;
pub use data_type::{DataType, data_type_named};
pub use inclusion::includes;
pub use laws::includes_by_rules;
pub use making::kind_of;
pub use naming::{bare_name, is_type_name};
pub use refusal::Halt;
