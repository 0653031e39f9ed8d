//! The commands of the program, over streams, a tree and a machine in memory: words, inputs, bundles, and streams that fail.
use agent_machine::{DocMachine, FailingTexts, MachineDoc, States};
use pp_values::Memory;
use site_commands::site_main;
use site_io::{MemListener, MemSink, MemSource, MemTree, OpenGate};
use std::alloc::{AllocError, Global};
use std::sync::Wait;
use std::test::Fail;
use std::thread::Threads;

/// Which call of source, output and error stream is to fail, counted from 1; 0 is none.
type Failing = (u64, u64, u64);

pub const NONE: Failing = (0, 0, 0);

/// A run: its words, with bars between them, the input, and which calls fail; then the status, and what stands on output and
/// error stream.
pub type Run<'a> = (&'a str, &'a str, Failing, u8, &'a str, &'a str);

/// The words between the bars; an empty text has none.
fn words_of(alloc: Global, words: &str) -> Result<Vec<String>, AllocError> {
    let mut found = Vec::new(alloc);
    if !words.is_empty() {
        for word in words.split('|') {
            found.push(String::from_str(alloc, word)?)?;
        }
    }
    Ok(found)
}

/// Whether the run ends so.
pub fn ends_so<R: Threads + Wait + Sync>(
    rt: &R,
    alloc: Global,
    run: &Run<'_>,
) -> Result<bool, Memory> {
    ends_so_on(rt, alloc, run, &[])
}

/// Whether the run ends so on a machine of which the calls with these numbers fail, counted from 1.
pub fn ends_so_on<R: Threads + Wait + Sync>(
    rt: &R,
    alloc: Global,
    run: &Run<'_>,
    failing: &[u64],
) -> Result<bool, Memory> {
    let (words, input, (reads, writes, tells), status, wanted, told) = run;
    let words = words_of(alloc, words)?;
    let mut source = MemSource::new(alloc, input.as_bytes(), &[*reads])?;
    let mut out = MemSink::new(alloc, 65_536, &[*writes])?;
    let mut err = MemSink::new(alloc, 4096, &[*tells])?;
    let mut net = MemListener::new(alloc, Vec::new(alloc), &[])?;
    let mut tree = MemTree::new(alloc, &[])?;
    let mut machine = empty_machine(alloc, failing)?;
    let ended = site_main(
        rt,
        alloc,
        words.as_slice(),
        &mut source,
        &mut out,
        &mut err,
        &mut net,
        &mut tree,
        &mut machine,
        &OpenGate,
    );
    let is_told = *told == USAGE || err.written() == told.as_bytes();
    Ok(ended == *status && out.written() == wanted.as_bytes() && is_told)
}

/// A machine of which nothing is recorded, until a document is loaded, and of which the calls with these numbers fail.
pub fn empty_machine(alloc: Global, failing: &[u64]) -> Result<DocMachine, Memory> {
    let document = MachineDoc {
        failing: FailingTexts::new(alloc),
        state: States::new(alloc),
    };
    DocMachine::new(alloc, document, failing)
}

/// What `clap` says of words that it refuses, whatever that is.
const USAGE: &str = "usage";

const GOOD: &str = "notify { 'a': }";

/// The catalog of node `n` by that manifest.
const TITLED: &str =
    r#"{"catalog":1,"edges":[],"node":"n","resources":[{"attrs":{},"in":[],"tags":["class","main"],"title":"main","type":"Class"},{"attrs":{},"in":[0],"tags":["a","class","main","notify"],"title":"a","type":"Notify"}]}
"#;

const BAD: &str = "notify { 'a'";

/// The catalog of node `n` without resources of its own.
const EMPTY: &str =
    r#"{"catalog":1,"edges":[],"node":"n","resources":[{"attrs":{},"in":[],"tags":["class","main"],"title":"main","type":"Class"}]}
"#;

/// A bundle without requests.
const BUNDLE: &str = r#"{"bundle": 1, "files": {"manifests/site.pp": ""}, "nodes": {"a": {}}}"#;

const OPENED: &str =
    r#"{"entry":0,"journal":2,"kind":"open","site":{"files":{"manifests/site.pp":""},"nodes":{"a":{}}}}
{"entries":1}
"#;

/// A bundle with a request of a node that is not known.
const UNKNOWN: &str =
    r#"{"bundle": 1, "files": {"manifests/site.pp": ""}, "requests": [{"node": "z"}]}"#;

const REFUSED: &str =
    r#"{"entry":0,"journal":2,"kind":"open","site":{"files":{"manifests/site.pp":""},"nodes":{}}}
{"entries":1}
{"k":1,"reply":0,"unknown":"z"}
"#;

/// A bundle whose one request writes a log.
const LOGGED: &str =
    r#"{"bundle": 1, "files": {"manifests/site.pp": "notice('a')"}, "nodes": {"a": {}}, "requests": [{"node": "a"}]}"#;

const SERVED: &str =
    r#"{"entry":0,"journal":2,"kind":"open","site":{"files":{"manifests/site.pp":"notice('a')"},"nodes":{"a":{}}}}
{"author":0,"call":0,"entry":1,"facts":{},"k":1,"kind":"publish","node":"a","set":[]}
{"entries":2}
{"catalog":{"catalog":1,"edges":[],"node":"a","resources":[{"attrs":{},"in":[],"tags":["class","main"],"title":"main","type":"Class"}]},"entry":1,"k":1,"reply":0}
"#;

/// Faulty words, and input that no command reads.
const WORDS: [Run<'static>; 49] = [
    // Faulty words.
    ("", "", NONE, 10, "", USAGE),
    ("manifest", "", NONE, 10, "", USAGE),
    ("manifest|n|n", "", NONE, 10, "", USAGE),
    ("Manifest|n", "", NONE, 10, "", USAGE),
    ("sequence|n", "", NONE, 10, "", USAGE),
    ("Sequence", "", NONE, 10, "", USAGE),
    ("manifest|Web", "", NONE, 10, "", "bad word Web\n"),
    ("manifest|", "", NONE, 10, "", "bad word \n"),
    ("manifest|a/b", "", NONE, 10, "", "bad word a/b\n"),
    ("Batch", "", NONE, 10, "", USAGE),
    ("batch|2", "", NONE, 10, "", USAGE),
    ("batch|--workers", "", NONE, 10, "", USAGE),
    ("batch|--worker|2", "", NONE, 10, "", USAGE),
    ("batch|--workers|2|2", "", NONE, 10, "", USAGE),
    ("batch|--workers|0", "", NONE, 10, "", "bad word 0\n"),
    ("batch|--workers|65", "", NONE, 10, "", "bad word 65\n"),
    ("batch|--workers|02", "", NONE, 10, "", "bad word 02\n"),
    ("batch|--workers|", "", NONE, 10, "", "bad word \n"),
    ("lookup", "", NONE, 10, "", USAGE),
    ("lookup|n", "", NONE, 10, "", USAGE),
    ("lookup|n|k|--merge", "", NONE, 10, "", USAGE),
    ("lookup|n|k|deep", "", NONE, 10, "", USAGE),
    ("lookup|n|k|-merge|deep", "", NONE, 10, "", USAGE),
    ("lookup|n|k|--merge|deep|deep", "", NONE, 10, "", USAGE),
    ("Lookup|n|k", "", NONE, 10, "", USAGE),
    ("lookup|N|", "", NONE, 10, "", "bad word N\n"),
    ("lookup|n|", "", NONE, 10, "", "bad word \n"),
    ("lookup|n||--merge|all", "", NONE, 10, "", "bad word \n"),
    ("lookup|n|k|--merge|all", "", NONE, 10, "", "bad word all\n"),
    ("lookup|n|k|--merge|", "", NONE, 10, "", "bad word \n"),
    ("manifest|a b", "", NONE, 10, "", "bad word a b\n"),
    ("manifest|é", "", NONE, 10, "", "bad word é\n"),
    ("demo", "", NONE, 10, "", USAGE),
    ("demo|1|1", "", NONE, 10, "", USAGE),
    ("Demo|1", "", NONE, 10, "", USAGE),
    ("demo|0", "", NONE, 10, "", "bad word 0\n"),
    ("demo|4097", "", NONE, 10, "", "bad word 4097\n"),
    ("demo|017", "", NONE, 10, "", "bad word 017\n"),
    // Input that no command reads.
    ("sequence", "", NONE, 11, "", "B1\n"),
    ("sequence", "{", NONE, 11, "", "B1\n"),
    ("sequence", "{\"bundle\":2}", NONE, 11, "", "B2 bundle\n"),
    ("sequence", "[]", NONE, 11, "", "B2 bundle\n"),
    ("sequence", "{\"bundle\":1}", NONE, 11, "", "B2 files\n"),
    (
        "sequence",
        "{\"bundle\":1,\"files\":{\"manifests/site.pp\":\"\"},\"requests\":[{}]}",
        NONE,
        11,
        "",
        "B2 requests.0\n",
    ),
    ("batch", "{", NONE, 11, "", "B1\n"),
    ("batch|--workers|64", "[]", NONE, 11, "", "B2 bundle\n"),
    (
        "batch|--workers|64",
        "{\"bundle\":1}",
        NONE,
        11,
        "",
        "B2 files\n",
    ),
    ("lookup|n|k", "{", NONE, 11, "", "B1\n"),
    (
        "lookup|n|k|--merge|deep",
        "{\"bundle\":1}",
        NONE,
        11,
        "",
        "B2 files\n",
    ),
];

/// Catalogs, faults and bundles.
const ANSWERS: [Run<'static>; 16] = [
    // Catalogs and faults of a node.
    (
        "manifest|web-1.example_0",
        " # nothing\r\n\t/* at\rall */",
        NONE,
        0,
        r#"{"catalog":1,"edges":[],"node":"web-1.example_0","resources":[{"attrs":{},"in":[],"tags":["class","main"],"title":"main","type":"Class"}]}
"#,
        "",
    ),
    (
        "manifest|n",
        "notify { 'a': }\nnotify { 'a': }",
        NONE,
        1,
        "",
        "F14 manifests/site.pp:2 Duplicate Notify[a] manifests/site.pp:1\n",
    ),
    (
        "manifest|n",
        "notify { 'a'",
        NONE,
        1,
        "",
        "F1 manifests/site.pp:1 Syntax\n",
    ),
    (
        "manifest|n",
        "notify {\n'a\n\n",
        NONE,
        1,
        "",
        "F1 manifests/site.pp:4 Syntax\n",
    ),
    (
        "manifest|n",
        "\nnotify { 'a': \0}",
        NONE,
        1,
        "",
        "F1 manifests/site.pp:2 Syntax\n",
    ),
    (
        "manifest|n",
        "$x = 1\n$x = 2",
        NONE,
        1,
        "",
        "F3 manifests/site.pp:2 Reassigned x\n",
    ),
    (
        "manifest|n",
        "\u{feff}notify { 'a': }",
        NONE,
        1,
        "",
        "F1 manifests/site.pp:1 Syntax\n",
    ),
    (
        "manifest|n",
        "notify { 'a': }\n/* open\n",
        NONE,
        1,
        "",
        "F1 manifests/site.pp:3 Syntax\n",
    ),
    // The demo.
    (
        "demo|17",
        "",
        NONE,
        0,
        "nodes 17\nserved 34\nresources 71\nentries 35\n",
        "",
    ),
    // Bundles.
    (
        "sequence",
        r#"{"bundle": 1, "files": {"manifests/site.pp": ""}, "nodes": {"a": {}}, "requests": [{"node": "a"}]}"#,
        NONE,
        0,
        r#"{"entry":0,"journal":2,"kind":"open","site":{"files":{"manifests/site.pp":""},"nodes":{"a":{}}}}
{"author":0,"call":0,"entry":1,"facts":{},"k":1,"kind":"publish","node":"a","set":[]}
{"entries":2}
{"catalog":{"catalog":1,"edges":[],"node":"a","resources":[{"attrs":{},"in":[],"tags":["class","main"],"title":"main","type":"Class"}]},"entry":1,"k":1,"reply":0}
"#,
        "",
    ),
    (
        "sequence",
        r#"{"bundle": 1, "files": {"manifests/site.pp": "@@notify { 'me': }\nNotify <<| |>>"}, "nodes": {"a": {}}, "requests": [{"node": "a"}, {"node": "a"}]}"#,
        NONE,
        0,
        r#"{"entry":0,"journal":2,"kind":"open","site":{"files":{"manifests/site.pp":"@@notify { 'me': }\nNotify <<| |>>"},"nodes":{"a":{}}}}
{"author":0,"call":0,"entry":1,"facts":{},"k":1,"kind":"publish","node":"a","set":[{"at":"manifests/site.pp:1","attrs":{},"tags":["class","main","me","notify"],"title":"me","type":"Notify"}]}
{"author":0,"call":1,"entry":2,"facts":{},"k":2,"kind":"publish","node":"a","set":[{"at":"manifests/site.pp:1","attrs":{},"tags":["class","main","me","notify"],"title":"me","type":"Notify"}]}
{"entries":3}
{"catalog":{"catalog":1,"edges":[],"node":"a","resources":[{"attrs":{},"in":[],"tags":["class","main"],"title":"main","type":"Class"},{"attrs":{},"in":[0],"tags":["class","main","me","notify"],"title":"me","type":"Notify"}]},"entry":1,"k":1,"reply":0}
{"catalog":{"catalog":1,"edges":[],"node":"a","resources":[{"attrs":{},"in":[],"tags":["class","main"],"title":"main","type":"Class"},{"attrs":{},"in":[0],"tags":["class","main","me","notify"],"title":"me","type":"Notify"}]},"entry":2,"k":2,"reply":1}
"#,
        "",
    ),
    (
        "sequence",
        r#"{"bundle": 1, "files": {"manifests/site.pp": "@@notify { 'me': }\nNotify <<| |>>"}, "nodes": {"a": {}, "b": {}}, "requests": [{"node": "a"}, {"node": "b"}]}"#,
        NONE,
        1,
        r#"{"entry":0,"journal":2,"kind":"open","site":{"files":{"manifests/site.pp":"@@notify { 'me': }\nNotify <<| |>>"},"nodes":{"a":{},"b":{}}}}
{"author":0,"call":0,"entry":1,"facts":{},"k":1,"kind":"publish","node":"a","set":[{"at":"manifests/site.pp:1","attrs":{},"tags":["class","main","me","notify"],"title":"me","type":"Notify"}]}
{"entries":2}
{"catalog":{"catalog":1,"edges":[],"node":"a","resources":[{"attrs":{},"in":[],"tags":["class","main"],"title":"main","type":"Class"},{"attrs":{},"in":[0],"tags":["class","main","me","notify"],"title":"me","type":"Notify"}]},"entry":1,"k":1,"reply":0}
{"fault":"F14 manifests/site.pp:1 Duplicate Notify[me] manifests/site.pp:1","k":2,"reply":1}
"#,
        "",
    ),
    (
        "sequence",
        r#"{"bundle": 1, "files": {"manifests/site.pp": ""}, "nodes": {"a": {}}, "requests": [{"node": "z"}, {"node": "a", "seen": 2}]}"#,
        NONE,
        1,
        r#"{"entry":0,"journal":2,"kind":"open","site":{"files":{"manifests/site.pp":""},"nodes":{"a":{}}}}
{"entries":1}
{"k":1,"reply":0,"unknown":"z"}
{"length":1,"reply":1,"seen":2}
"#,
        "",
    ),
    (
        "sequence",
        r#"{"bundle": 1, "files": {"manifests/site.pp": "notify { 'a'"}, "requests": [{"deactivate": "b"}, {"node": "b", "facts": {}}]}"#,
        NONE,
        1,
        r#"{"entry":0,"journal":2,"kind":"open","site":{"files":{"manifests/site.pp":"notify { 'a'"},"nodes":{}}}
{"author":0,"call":0,"entry":1,"kind":"deactivate","node":"b"}
{"entries":2}
{"entry":1,"reply":0}
{"fault":"F1 manifests/site.pp:1 Syntax","k":2,"reply":1}
"#,
        "",
    ),
    // One worker writes what requests in turn come to.
    (
        "batch",
        r#"{"bundle": 1, "files": {"manifests/site.pp": "@@notify { 'me': }\nNotify <<| |>>"}, "nodes": {"a": {}}, "requests": [{"node": "a"}, {"node": "a"}]}"#,
        NONE,
        0,
        r#"{"entry":0,"journal":2,"kind":"open","site":{"files":{"manifests/site.pp":"@@notify { 'me': }\nNotify <<| |>>"},"nodes":{"a":{}}}}
{"author":0,"call":0,"entry":1,"facts":{},"k":1,"kind":"publish","node":"a","set":[{"at":"manifests/site.pp:1","attrs":{},"tags":["class","main","me","notify"],"title":"me","type":"Notify"}]}
{"author":0,"call":1,"entry":2,"facts":{},"k":2,"kind":"publish","node":"a","set":[{"at":"manifests/site.pp:1","attrs":{},"tags":["class","main","me","notify"],"title":"me","type":"Notify"}]}
{"entries":3}
{"catalog":{"catalog":1,"edges":[],"node":"a","resources":[{"attrs":{},"in":[],"tags":["class","main"],"title":"main","type":"Class"},{"attrs":{},"in":[0],"tags":["class","main","me","notify"],"title":"me","type":"Notify"}]},"entry":1,"k":1,"reply":0}
{"catalog":{"catalog":1,"edges":[],"node":"a","resources":[{"attrs":{},"in":[],"tags":["class","main"],"title":"main","type":"Class"},{"attrs":{},"in":[0],"tags":["class","main","me","notify"],"title":"me","type":"Notify"}]},"entry":2,"k":2,"reply":1}
"#,
        "",
    ),
    (
        "batch|--workers|1",
        r#"{"bundle": 1, "files": {"manifests/site.pp": ""}, "nodes": {"a": {}}, "requests": [{"node": "z"}, {"node": "a", "seen": 2}]}"#,
        NONE,
        1,
        r#"{"entry":0,"journal":2,"kind":"open","site":{"files":{"manifests/site.pp":""},"nodes":{"a":{}}}}
{"entries":1}
{"k":1,"reply":0,"unknown":"z"}
{"length":1,"reply":1,"seen":2}
"#,
        "",
    ),
];

/// Streams that fail, refusals that are written, and logs.
const STREAMS: [Run<'static>; 35] = [
    // Streams that fail.
    ("manifest|n", GOOD, (1, 0, 0), 12, "", "read fault\n"),
    ("manifest|n", GOOD, (2, 0, 0), 12, "", "read fault\n"),
    ("manifest|n", GOOD, (0, 1, 0), 13, "", ""),
    ("manifest|n", GOOD, (0, 0, 1), 0, TITLED, ""),
    ("manifest|n", BAD, (0, 0, 1), 13, "", ""),
    (
        "manifest|n",
        BAD,
        (0, 1, 0),
        1,
        "",
        "F1 manifests/site.pp:1 Syntax\n",
    ),
    // The line that says why is lost, and the status stays.
    ("manifest|n", GOOD, (1, 1, 1), 12, "", ""),
    ("", "", (0, 0, 1), 10, "", ""),
    ("sequence", BUNDLE, (1, 0, 0), 12, "", "read fault\n"),
    ("sequence", BUNDLE, (2, 0, 0), 12, "", "read fault\n"),
    ("sequence", BUNDLE, (0, 1, 0), 13, "", ""),
    ("sequence", BUNDLE, (0, 0, 1), 0, OPENED, ""),
    ("sequence", "{", (0, 0, 1), 11, "", ""),
    ("batch", BUNDLE, (1, 0, 0), 12, "", "read fault\n"),
    ("batch|--workers|64", BUNDLE, (0, 1, 0), 13, "", ""),
    ("batch|--workers|64", BUNDLE, (0, 0, 1), 0, OPENED, ""),
    ("batch", "{", (0, 0, 1), 11, "", ""),
    ("sequence", UNKNOWN, (0, 0, 0), 1, REFUSED, ""),
    ("sequence", UNKNOWN, (0, 1, 0), 13, "", ""),
    ("sequence", UNKNOWN, (0, 0, 1), 1, REFUSED, ""),
    ("batch|--workers|4", UNKNOWN, (0, 0, 0), 1, REFUSED, ""),
    ("batch|--workers|4", UNKNOWN, (0, 1, 0), 13, "", ""),
    // Logs.
    ("manifest|n", "notice('a')", NONE, 0, EMPTY, "notice: a\n"),
    (
        "manifest|n",
        "err('a', 1)\nnotice(\"b\\nc\")",
        NONE,
        0,
        EMPTY,
        "err: a 1\nnotice: b\nc\n",
    ),
    ("manifest|n", "notice('')", NONE, 0, EMPTY, "notice: \n"),
    // The log comes first: where it can't be written, nothing else is.
    ("manifest|n", "notice('a')", (0, 0, 1), 13, "", ""),
    ("manifest|n", "notice('a')", (0, 1, 1), 13, "", ""),
    (
        "manifest|n",
        "notice('a')",
        (0, 1, 0),
        13,
        "",
        "notice: a\n",
    ),
    // Without lines the error stream is left alone.
    ("manifest|n", "", (0, 0, 1), 0, EMPTY, ""),
    // A compile that is refused has no log.
    (
        "manifest|n",
        "notice('a')\nfail('b')",
        NONE,
        1,
        "",
        "F25 manifests/site.pp:2 Failed b\n",
    ),
    (
        "manifest|n",
        "notice('a')\nfail('b')",
        (0, 0, 1),
        13,
        "",
        "",
    ),
    // Logs of bundles are dropped.
    ("sequence", LOGGED, (0, 0, 1), 0, SERVED, ""),
    ("batch", LOGGED, (0, 0, 1), 0, SERVED, ""),
    // A demo reads nothing, so no read of it fails.
    (
        "demo|1",
        "{",
        (1, 0, 1),
        0,
        "nodes 1\nserved 2\nresources 4\nentries 3\n",
        "",
    ),
    ("demo|1", "", (0, 1, 0), 13, "", ""),
];

/// A package that can't be written, and a service behind it.
const PACKAGE: &str =
    r#"{"bundle": 1, "files": {"manifests/site.pp": "package { 'p': ensure => present }\nclass e { }\ninclude e\nservice { 's': ensure => running }\nnotify { 'n': }\nPackage['p'] -> Class['e']\nClass['e'] ~> Service['s']"}, "nodes": {"n": {}}, "machine": {"failing": ["write Package[p] ensure"], "state": {}}}"#;

/// Two files to which a service subscribes.
pub const FILES: &str =
    r#"{"bundle": 1, "files": {"manifests/site.pp": "file { '/a': content => 'x' }\nfile { '/b': content => 'y' }\nservice { 's': ensure => running, subscribe => [File['/a'], File['/b']] }"}, "nodes": {"n": {}}, "machine": {"failing": [], "state": {"Service[s]": {"ensure": "running"}}}}"#;

/// The same, where both files are as they are to be.
const SETTLED: &str =
    r#"{"bundle": 1, "files": {"manifests/site.pp": "file { '/a': content => 'x' }\nfile { '/b': content => 'y' }\nservice { 's': ensure => running, subscribe => [File['/a'], File['/b']] }"}, "nodes": {"n": {}}, "machine": {"failing": [], "state": {"File[/a]":{"content":"x"},"File[/b]":{"content":"y"},"Service[s]":{"ensure":"running"}}}}"#;

/// What becomes of both files.
const APPLIED: &str =
    r#"{"changed":3,"failed":0,"node":"n","noop":0,"report":2,"resources":[{"changes":["content"],"fault":null,"ref":"File[/a]","refreshed":false,"status":"changed"},{"changes":["content"],"fault":null,"ref":"File[/b]","refreshed":false,"status":"changed"},{"changes":[],"fault":null,"ref":"Service[s]","refreshed":true,"status":"unchanged"}]}
{"failing":[],"machine":1,"state":{"File[/a]":{"content":"x"},"File[/b]":{"content":"y"},"Service[s]":{"ensure":"running"}}}
"#;

/// Nodes of bundles, and machines.
const NODES: [Run<'static>; 14] = [
    ("compile|z", BUNDLE, NONE, 1, "", "unknown node z\n"),
    ("compile|n", "{", NONE, 11, "", "B1\n"),
    ("compile|n", "{\"bundle\":2}", NONE, 11, "", "B2 bundle\n"),
    ("check", BUNDLE, NONE, 0, "files 1 faults 0\n", ""),
    (
        "check",
        r#"{"bundle": 1, "files": {"manifests/site.pp": "notify {", "modules/a/manifests/init.pp": "class a { }"}}"#,
        NONE,
        1,
        "F1 manifests/site.pp:1 Syntax\nfiles 2 faults 1\n",
        "",
    ),
    ("apply|z", BUNDLE, NONE, 1, "", "unknown node z\n"),
    (
        "apply|n",
        PACKAGE,
        NONE,
        6,
        r#"{"changed":1,"failed":1,"node":"n","noop":0,"report":2,"resources":[{"changes":[],"fault":"write ensure","ref":"Package[p]","refreshed":false,"status":"failed"},{"changes":[],"fault":null,"ref":"Service[s]","refreshed":false,"status":"skipped"},{"changes":["run"],"fault":null,"ref":"Notify[n]","refreshed":false,"status":"changed"}]}
{"failing":["write Package[p] ensure"],"machine":1,"state":{}}
"#,
        "",
    ),
    ("apply|n", FILES, NONE, 2, APPLIED, ""),
    (
        "apply|n",
        SETTLED,
        NONE,
        0,
        r#"{"changed":0,"failed":0,"node":"n","noop":0,"report":2,"resources":[{"changes":[],"fault":null,"ref":"File[/a]","refreshed":false,"status":"unchanged"},{"changes":[],"fault":null,"ref":"File[/b]","refreshed":false,"status":"unchanged"},{"changes":[],"fault":null,"ref":"Service[s]","refreshed":false,"status":"unchanged"}]}
{"failing":[],"machine":1,"state":{"File[/a]":{"content":"x"},"File[/b]":{"content":"y"},"Service[s]":{"ensure":"running"}}}
"#,
        "",
    ),
    ("apply|n", FILES, (0, 1, 0), 13, "", ""),
    ("apply|n", FILES, (1, 0, 0), 12, "", "read fault\n"),
    ("apply|a", LOGGED, (0, 0, 1), 13, "", ""),
    ("check|--dir|d", "", NONE, 11, "", "B2 manifests/site.pp\n"),
    (
        "compile|a|--dir=d",
        BUNDLE,
        NONE,
        11,
        "",
        "B2 manifests/site.pp\n",
    ),
];

#[test]
fn words_and_inputs_are_refused(rt: HostRuntime) -> Result<(), Fail> {
    for run in WORDS.iter() {
        let words = run.0;
        let input = run.1;
        assert!(rt; ends_so(&rt, rt.alloc(), run)?, "{words} {input}");
    }
    Ok(())
}

#[test]
fn manifests_and_bundles_are_answered(rt: HostRuntime) -> Result<(), Fail> {
    for run in ANSWERS.iter() {
        let words = run.0;
        let input = run.1;
        assert!(rt; ends_so(&rt, rt.alloc(), run)?, "{words} {input}");
    }
    Ok(())
}

#[test]
fn streams_may_fail(rt: HostRuntime) -> Result<(), Fail> {
    for run in STREAMS.iter() {
        let words = run.0;
        let input = run.1;
        assert!(rt; ends_so(&rt, rt.alloc(), run)?, "{words} {input}");
    }
    Ok(())
}

#[test]
fn nodes_are_compiled_and_applied(rt: HostRuntime) -> Result<(), Fail> {
    for run in NODES.iter() {
        let words = run.0;
        let input = run.1;
        assert!(rt; ends_so(&rt, rt.alloc(), run)?, "{words} {input}");
    }
    Ok(())
}
