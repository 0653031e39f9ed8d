//! The tests of what the crates that compile a site offer to callers: whole commands over streams in memory, expressions at a depth,
//! and the texts of what no manifest comes to yet.
#![tactic(auto)]

#[cfg(test)]
mod commands;
#[cfg(test)]
mod depth;
#[cfg(test)]
mod faults;
#[cfg(test)]
mod lookups;
#[cfg(test)]
mod machines;
#[cfg(test)]
mod names;
#[cfg(test)]
mod replies;
#[cfg(test)]
mod services;
