//! A site in a folder that is served to connections in memory.
use crate::commands::empty_machine;
use pp_values::{Memory, Text};
use site_commands::site_main;
use site_io::{Bytes, MemConn, MemListener, MemSink, MemSource, MemTree, OpenGate};
use std::alloc::{AllocError, Global};
use std::sync::Wait;
use std::test::Fail;
use std::thread::Threads;

/// What two connections send where three are wanted, which call of the listener is to fail, counted from 1 (0 is
/// none); then the status, and what stands on output and error stream.
type Service<'a> = (&'a str, &'a str, u64, u8, &'a str, &'a str);

const ASKED: &str = "POST /catalog/n HTTP/1.1\r\nHost: s\r\nContent-Length: 2\r\n\r\n{}";

const OPENED: &str =
    r#"{"entry":0,"journal":2,"kind":"open","site":{"files":{"manifests/site.pp":""},"nodes":{}}}
{"entries":1}
"#;

const PUBLISHED: &str =
    r#"{"entry":0,"journal":2,"kind":"open","site":{"files":{"manifests/site.pp":""},"nodes":{}}}
{"author":1,"call":0,"entry":1,"facts":{},"k":1,"kind":"publish","node":"n","set":[]}
{"entries":2}
"#;

const SERVICES: [Service<'static>; 6] = [
    ("", "", 0, 0, OPENED, ""),
    (ASKED, "", 0, 0, PUBLISHED, ""),
    (ASKED, "POST", 0, 0, PUBLISHED, "connection 2 H4\n"),
    // The first call listens, and the third one takes the second connection.
    (ASKED, "", 1, 14, OPENED, "net fault\n"),
    ("POST", ASKED, 3, 14, OPENED, "connection 1 H4\nnet fault\n"),
    (ASKED, ASKED, 3, 14, PUBLISHED, "net fault\n"),
];

fn connections(alloc: Global, first: &str, second: &str) -> Result<Vec<MemConn>, AllocError> {
    let mut connections = Vec::new(alloc);
    connections.push(MemConn::new(alloc, first.as_bytes(), 65_536, &[])?)?;
    connections.push(MemConn::new(alloc, second.as_bytes(), 65_536, &[])?)?;
    Ok(connections)
}

/// A folder `d` with an empty main manifest.
fn folder(alloc: Global) -> Result<MemTree, Memory> {
    let mut tree = MemTree::new(alloc, &[])?;
    let path = Text::from_str(alloc, "d/manifests/site.pp")?;
    tree.hold(path, Some(Bytes::new(alloc)))?;
    Ok(tree)
}

fn serve_words(alloc: Global) -> Result<Vec<String>, AllocError> {
    let mut words = Vec::new(alloc);
    for word in ["serve", "8140", "3", "--dir", "d"].iter() {
        words.push(String::from_str(alloc, word)?)?;
    }
    Ok(words)
}

/// Whether the service comes to this.
fn comes_to<R: Threads + Wait + Sync>(
    rt: &R,
    alloc: Global,
    service: &Service<'_>,
) -> Result<bool, Memory> {
    let (first, second, failing, status, wanted, told) = service;
    let words = serve_words(alloc)?;
    let mut source = MemSource::new(alloc, &[], &[])?;
    let mut out = MemSink::new(alloc, 65_536, &[])?;
    let mut err = MemSink::new(alloc, 4096, &[])?;
    let mut net = MemListener::new(alloc, connections(alloc, first, second)?, &[*failing])?;
    let mut tree = folder(alloc)?;
    let mut machine = empty_machine(alloc, &[])?;
    let ended = site_main(
        rt,
        alloc,
        words.as_slice(),
        &mut source,
        &mut out,
        &mut err,
        &mut net,
        &mut tree,
        &mut machine,
        &OpenGate,
    );
    let is_written = out.written() == wanted.as_bytes() && err.written() == told.as_bytes();
    Ok(ended == *status && is_written)
}

#[test]
fn connections_are_served(rt: HostRuntime) -> Result<(), Fail> {
    for service in SERVICES.iter() {
        let first = service.0;
        let failing = service.2;
        assert!(rt; comes_to(&rt, rt.alloc(), service)?, "{failing} {first}");
    }
    Ok(())
}
