//! The tests of what runs whatever the language: streams, the lock, jobs, histories, audits, requests in turn, shared sites, batches and searches for a fixed point.
#![tactic(auto)]

#[cfg(test)]
mod audits;
#[cfg(test)]
mod batches;
#[cfg(test)]
mod history;
#[cfg(test)]
mod jobs;
#[cfg(test)]
mod locks;
#[cfg(test)]
mod sequences;
#[cfg(test)]
mod settles;
#[cfg(test)]
mod shared;
#[cfg(test)]
mod streams;
