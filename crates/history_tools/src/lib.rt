//! What is done with whole histories of sites, over any language: an audit, and a search for a fixed point of a site.
#![tactic(auto)]

mod asking;
mod copying;
mod ending;
mod laws;
mod lent;
mod outcome;
mod rounds;
mod same_workers;
mod sameness;
mod set_changes;
mod settle_end;
mod settling;
mod telling;
mod written;

pub use history_audit::{Part, Verdict, audit};
pub use laws::{one_author_counts, settled_is_meant};
pub use settle_end::{SettleEnd, SettleResult};
pub use settling::{MOST_ROUNDS, settle};
