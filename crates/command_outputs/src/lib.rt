//! What each command gives for its input: the texts that are to be written, and by them the status.
#![tactic(auto)]

mod audit;
mod batch;
mod check;
mod compile;
mod compiled;
mod demo;
mod demo_site;
mod lines;
mod lookup;
mod manifest;
mod migrate;
mod node_catalog;
mod node_stop;
mod output;
mod replies;
mod resume;
mod sequence;
mod settle;

pub use audit::audit_output;
pub use batch::batch_output;
pub use check::check_output;
pub use compile::{compile_output, refuse_node};
pub use demo::demo_output;
pub use lines::line;
pub use lookup::lookup_output;
pub use manifest::manifest_output;
pub use migrate::migrate_output;
pub use node_catalog::compile_node;
pub use node_stop::NodeStop;
pub use output::Output;
pub use resume::{refuse_author, refuse_history, resume_output};
pub use sequence::sequence_output;
pub use settle::settle_output;
