//! Values of the language as JSON, and JSON as values.
#![tactic(auto)]

mod data;
mod forms;
mod reading;
mod stops;
mod value_forms;

pub use data::from_data;
pub use forms::to_form;
pub use reading::from_form;
pub use stops::{DataStop, FormStop, Numbers};
pub use value_forms::value_form;
