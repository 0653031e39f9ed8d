//! The texts of documents: catalogs, logs, faults, sites, journals and replies, and those of reports and machines.
#![tactic(auto)]

mod catalog_texts;
mod entry_forms;
mod entry_lines;
mod export_forms;
mod fault_names;
mod fault_texts;
mod journals;
mod log_texts;
mod replies;
mod resource_forms;
mod site_texts;

pub use agent_docs::{
    DocStop, MachineStop, machine_of, machines_are_told_apart, read_machine, read_report,
    reports_are_told_apart, write_machine, write_report,
};
pub use catalog_texts::{catalog_text, catalogs_are_told_apart, write_catalog};
pub use entry_lines::{count_line, entry_line, unfiled_line};
pub use export_forms::set_text;
pub use fault_names::FAULT_NAMES;
pub use fault_texts::{fault_text, write_fault};
pub use journals::write_journal;
pub use log_texts::log_text;
pub use replies::write_reply;
pub use site_texts::site_text;
