//! A small language of sites, and requests, replies and histories of it as words, for the tests of histories.
#![tactic(auto)]

mod asking;
mod lines;
mod toy;

pub use asking::{compile, request, requests};
pub use lines::{write_entries, write_reply};
pub use toy::{Toy, ToySite, strict_site, toy_site};
