//! A site that is served over a network: each connection on a thread of its own, all under one history.
#![tactic(auto)]

mod door;
mod service;
mod service_stop;
mod visit;

pub use service::{MOST_CONNECTIONS, Served, serve, serve_resumed};
pub use service_stop::ServiceStop;
