//! Replies and entries of histories over the toy language, as words.
use crate::toy::{Toy, ToySite};
use site_core::{Entry, Reply, ReplyOf};
use std::alloc::AllocError;

/// A reply, such as `served 1 1 false;`.
pub fn write_reply(out: &mut String, reply: &Reply<Toy>) -> Result<(), AllocError> {
    match reply {
        ReplyOf::Served { entry, k, catalog } => write!(out, "served {entry} {k} {catalog};"),
        ReplyOf::Refused { k, fault } => write!(out, "refused {k} {fault};"),
        ReplyOf::HistoryFull { length } => write!(out, "full {length};"),
        ReplyOf::SeenAhead { length } => write!(out, "ahead {length};"),
        ReplyOf::UnknownNode { k } => write!(out, "unknown {k};"),
        ReplyOf::Deactivated { entry } => write!(out, "deactivated {entry};"),
        ReplyOf::Deployed { entry } => write!(out, "deployed {entry};"),
        ReplyOf::Reported { entry } => write!(out, "reported {entry};"),
        ReplyOf::Memory => out.push_str("memory;"),
    }
}

fn write_entry(out: &mut String, entry: &Entry<ToySite>) -> Result<(), AllocError> {
    match entry {
        Entry::Open { .. } => out.push_str("open;"),
        Entry::Publish {
            author,
            call,
            node,
            k,
            ..
        } => write!(out, "publish {author} {call} {node} {k};"),
        Entry::Deactivate { author, call, node } => write!(out, "gone {author} {call} {node};"),
        Entry::Deploy { author, call, .. } => write!(out, "deploy {author} {call};"),
        Entry::Report {
            author,
            call,
            node,
            ..
        } => write!(out, "report {author} {call} {node};"),
    }
}

/// Entries, such as `open;publish 0 0 a 1;`.
pub fn write_entries(out: &mut String, entries: &[Entry<ToySite>]) -> Result<(), AllocError> {
    for entry in entries {
        write_entry(out, entry)?;
    }
    Ok(())
}
