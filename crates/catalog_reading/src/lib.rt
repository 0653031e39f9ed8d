//! Catalogs out of their texts.
#![tactic(auto)]

mod checks;
mod numbers;
mod reading;
mod resources;

pub use json_documents::DocStop;
pub use reading::read_catalog;
