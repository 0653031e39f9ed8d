//! What the nodes of a site export, as versions that share their sets.
#![tactic(auto)]

mod export_place;
mod export_places;
mod index;
mod laws;
mod leaf;
mod leaves;
mod queries;
mod root;
mod row;
mod rows;
mod run;
mod runs;
mod sameness;
mod table;
mod version;

pub use export_place::ExportPlace;
pub use export_places::ExportPlaces;
pub use laws::{empty_has_none, with_replaces_one_set, without_removes_one_set};
pub use sameness::is_same_set;
pub use version::Version;
