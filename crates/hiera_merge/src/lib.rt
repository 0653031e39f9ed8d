//! Values as the sources of hierarchical data have them: several for one key as one, and parts of them by dotted keys.
#![tactic(auto)]

mod deepening;
mod digging;
mod hashing;
mod key_places;
mod keyed_pairs;
mod merge;
mod merging;
mod options;
mod uniting;

pub use digging::{dig, member, parts, root, steps};
pub use keyed_pairs::KeyedPairs;
pub use merge::Merge;
pub use merging::merged;
pub use options::{merge_in, merge_of};
