//! One history of a site over any language: what was opened, published, deactivated, deployed and reported, in order.
#![tactic(auto)]

mod addition;
mod change;
mod compile_stop;
mod compiling;
mod counts;
mod done_stop;
mod entries;
mod entry;
mod history;
mod language;
mod laws;
mod plain;
mod reply;
mod resume_stop;
mod resuming;
mod site_stop;
mod snapshot;
mod state;

pub use addition::{Addition, add};
pub use compile_stop::CompileStop;
pub use compiling::{added, compile_under, served};
pub use done_stop::DoneStop;
pub use entries::Entries;
pub use entry::Entry;
pub use history::{GREATEST_AUTHOR, History, MOST_ENTRIES};
pub use language::Language;
pub use laws::{
    prefixes_are_legal, replies_stay, runs_are_sound, sets_are_the_latest, snapshots_stay,
};
pub use plain::{Plain, PlainKind};
pub use reply::{Reply, ReplyOf};
pub use resume_stop::ResumeStop;
pub use site_stop::SiteStop;
pub use snapshot::Snapshot;
pub use state::CoreState;
