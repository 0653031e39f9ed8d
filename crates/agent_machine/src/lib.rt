//! The machine that a catalog is applied to, and what the report of a run says.
#![tactic(auto)]

mod call_text;
mod doc_machine;
mod doc_parts;
mod failing_texts;
mod form;
mod holds;
mod machine;
mod machine_doc;
mod properties;
mod recording;
mod report;
mod report_line;
mod states;
mod status;
mod wide_machine;
mod wrote;

pub use doc_machine::DocMachine;
pub use failing_texts::FailingTexts;
pub use holds::Holds;
pub use machine::Machine;
pub use machine_doc::MachineDoc;
pub use properties::Properties;
pub use report::{Report, ReportLines};
pub use report_line::ReportLine;
pub use states::States;
pub use status::Status;
pub use wide_machine::WideMachine;
pub use wrote::Wrote;
