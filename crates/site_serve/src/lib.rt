//! Connections to a site that threads share.
#![tactic(auto)]

mod answering;
mod ask_stop;
mod asking;
mod call;
mod conn_end;
mod endpoint;
mod refusal;
mod responses;
mod routes;
mod serving;

pub use conn_end::{ConnEnd, MOST_ANSWERS};
pub use refusal::Refusal;
pub use serving::serve_connection;
