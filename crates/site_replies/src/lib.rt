//! Replies to requests, in the order of their requests.
#![tactic(auto)]

mod replies;

pub use replies::Replies;
