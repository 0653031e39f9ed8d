//! The tests of documents: what is read back is what was written.
#![tactic(auto)]

#[cfg(test)]
mod agent_documents;
