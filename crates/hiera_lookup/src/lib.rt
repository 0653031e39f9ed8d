//! Look-ups over the layers of hierarchical data: sources merged, a part dug out, and texts interpolated.
#![tactic(auto)]

mod answer;
mod asking;
mod busy;
mod calling;
mod filling;
mod finding;
mod looked;
mod looking;
mod option_reading;
mod plain_options;
mod refusals;
mod world;

pub use calling::{LIMIT, lookup};
