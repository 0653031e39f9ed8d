//! Rules for words that a program is given: names of nodes, numbers, and how great a number may be.
#![tactic(auto)]

mod limits;
mod node_name;
mod numbers;

pub use limits::{
    MOST_CONNECTIONS, MOST_DEMO_NODES, MOST_NAME_CHARACTERS, MOST_PORT, MOST_ROUNDS, MOST_WORKERS,
};
pub use node_name::is_node_name;
pub use numbers::number_within;
