//! A site that threads share: compiles that run side by side over one history.
#![tactic(auto)]

mod locked;
mod pass;
mod site;

pub use agent_machine::Report;
pub use pass::{SiteNote, SitePass};
pub use res_core::CompileRequest;
pub use site::SharedSite;
pub use site_core::{Reply, ReplyOf, ResumeStop};
