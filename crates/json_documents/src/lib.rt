//! What documents have in common: JSON that is written at once, its lines, and what reads back.
#![tactic(auto)]

mod doc_stop;
mod json_output;
mod lines;
mod value_output;

pub use doc_stop::DocStop;
pub use json_output::JsonOutput;
pub use lines::{cut_line, ended, json_text, read_json, text_forms};
pub use value_output::write_value;
