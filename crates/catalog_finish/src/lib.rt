//! What becomes of a compile's tables: the node's catalog and its exports, or the first fault.
#![tactic(auto)]

mod attributes;
mod checks;
mod collecting;
mod containment;
mod edge_table;
mod exporting;
mod finishing;
mod laws;
mod layout;
mod name_places;
mod named;
mod names;
mod naming;
mod plain_values;
mod relating;
mod resources;
mod tables;
mod targets;
mod titles;

pub use finishing::finish;
pub use laws::no_cycle_is_left;
