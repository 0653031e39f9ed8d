//! Reports of runs, and machines, as documents.
#![tactic(auto)]

mod machine_members;
mod machine_stop;
mod machine_texts;
mod refusing;
mod report_reading;
mod report_texts;

pub use json_documents::DocStop;
pub use machine_members::machine_of;
pub use machine_stop::MachineStop;
pub use machine_texts::{machines_are_told_apart, read_machine, write_machine};
pub use report_reading::read_report;
pub use report_texts::{report_form, reports_are_told_apart, write_report};
