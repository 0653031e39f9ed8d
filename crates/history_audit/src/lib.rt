//! Whether a history that was written down is legal: each entry is looked at again, each publication compiled again.
#![tactic(auto)]

mod auditing;
mod laws;
mod past;
mod stage;
mod verdict;

pub use auditing::audit;
pub use laws::{says_legal_exactly, tells_the_first};
pub use verdict::{Part, Verdict, verdict_text};
