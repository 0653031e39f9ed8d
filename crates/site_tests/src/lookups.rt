//! Sites with data: what `lookup` writes, and what `sequence` makes of them, over streams in memory.
use crate::commands::{NONE, Run, ends_so};
use std::test::Fail;

/// The value of `a` is a number that is no integer, that of `b` is one.
const NUMBERS: &str =
    r#"{"bundle": 1, "files": {"manifests/site.pp": "", "hiera.yaml": "{\"version\":5,\"hierarchy\":[{\"name\":\"common\",\"path\":\"common.json\"}]}", "data/common.json": "{\"a\":0.5,\"b\":1}"}}"#;

/// Three files with hashes.
const HASHES: &str =
    r#"{"bundle": 1, "files": {"manifests/site.pp": "", "hiera.yaml": "{\"version\":5,\"hierarchy\":[{\"name\":\"all\",\"paths\":[\"1.json\",\"2.json\",\"3.json\"]}]}", "data/1.json": "{\"k\":{\"a\":1,\"b\":[1,2]}}", "data/2.json": "{\"k\":{\"a\":2,\"b\":[2,3],\"c\":{\"x\":1}}}", "data/3.json": "{\"k\":{\"c\":{\"y\":2},\"d\":5}}"}}"#;

/// Three files with lists and a text, of which the data say by which merge `o` becomes one.
const LISTS: &str =
    r#"{"bundle": 1, "files": {"manifests/site.pp": "", "hiera.yaml": "{\"version\":5,\"hierarchy\":[{\"name\":\"all\",\"paths\":[\"1.json\",\"2.json\",\"3.json\"]}]}", "data/1.json": "{\"k\":[1,[2]],\"o\":[1],\"lookup_options\":{\"o\":{\"merge\":\"unique\"}}}", "data/2.json": "{\"k\":[2,3],\"o\":[2]}", "data/3.json": "{\"k\":\"4\"}"}}"#;

/// A key that looks itself up, and one that reads a variable that there is not.
const WITHIN: &str =
    r#"{"bundle": 1, "files": {"manifests/site.pp": "", "hiera.yaml": "{\"version\":5,\"hierarchy\":[{\"name\":\"common\",\"path\":\"common.json\"}]}", "data/common.json": "{\"a\":\"%{lookup('a')}\",\"m\":\"x%{nope}y\"}"}}"#;

/// The main manifest has a fault; of the nodes, one has facts and one has none.
const NODES: &str =
    r#"{"bundle": 1, "files": {"manifests/site.pp": "notify {", "hiera.yaml": "{\"version\":5,\"hierarchy\":[{\"name\":\"nodes\",\"path\":\"%{trusted.certname}.json\"},{\"name\":\"common\",\"path\":\"common.json\"}]}", "data/web1.json": "{\"who\":\"web1 itself\"}", "data/common.json": "{\"os\":\"<%{os}>\",\"facts\":\"%{alias('all')}\",\"all\":[\"%{facts.os}\"],\"who\":\"%{trusted.hostname} in %{trusted.domain}\",\"at\":\"%{environment}\"}"}, "nodes": {"web1": {"os": "debian"}, "lb": {}}}"#;

const LOOKUPS: [Run<'static>; 34] = [
    // The value of a key, by a merge and by the data of a node.
    ("lookup|n|b", NUMBERS, NONE, 0, "1\n", ""),
    (
        "lookup|n|a",
        NUMBERS,
        NONE,
        1,
        "",
        "F23 lookup:1 BadData data/common.json\n",
    ),
    (
        "lookup|n|k|--merge|first",
        HASHES,
        NONE,
        0,
        "{\"a\":1,\"b\":[1,2]}\n",
        "",
    ),
    (
        "lookup|n|k|--merge|hash",
        HASHES,
        NONE,
        0,
        "{\"__ptype\":\"Hash\",\"__pvalue\":[\"c\",{\"x\":1},\"d\",5,\"a\",1,\"b\",[1,2]]}\n",
        "",
    ),
    (
        "lookup|n|k|--merge|deep",
        HASHES,
        NONE,
        0,
        r#"{"__ptype":"Hash","__pvalue":["c",{"__ptype":"Hash","__pvalue":["y",2,"x",1]},"d",5,"a",1,"b",[2,3,1]]}
"#,
        "",
    ),
    (
        "lookup|n|k|--merge|unique",
        HASHES,
        NONE,
        1,
        "",
        "F22 lookup:1 MergeMismatch k\n",
    ),
    ("lookup|n|k", HASHES, NONE, 0, "{\"a\":1,\"b\":[1,2]}\n", ""),
    ("lookup|n|k.b.1", HASHES, NONE, 0, "2\n", ""),
    (
        "lookup|n|k.c",
        HASHES,
        NONE,
        1,
        "",
        "F20 lookup:1 LookupMissing k.c\n",
    ),
    (
        "lookup|n|k.c|--merge|hash",
        HASHES,
        NONE,
        0,
        "{\"x\":1}\n",
        "",
    ),
    (
        "lookup|n|k|--merge|unique",
        LISTS,
        NONE,
        0,
        "[1,2,3,\"4\"]\n",
        "",
    ),
    ("lookup|n|o", LISTS, NONE, 0, "[1,2]\n", ""),
    ("lookup|n|o|--merge|first", LISTS, NONE, 0, "[1]\n", ""),
    ("lookup|n|m", WITHIN, NONE, 0, "\"xy\"\n", ""),
    (
        "lookup|n|a",
        WITHIN,
        NONE,
        1,
        "",
        "F21 lookup:1 LookupLoop a\n",
    ),
    (
        "lookup|n|zz",
        WITHIN,
        NONE,
        1,
        "",
        "F20 lookup:1 LookupMissing zz\n",
    ),
    (
        "lookup|n|--|--merge",
        WITHIN,
        NONE,
        1,
        "",
        "F20 lookup:1 LookupMissing --merge\n",
    ),
    ("lookup|web1|os", NODES, NONE, 0, "\"<debian>\"\n", ""),
    ("lookup|lb|os", NODES, NONE, 0, "\"<>\"\n", ""),
    ("lookup|other|os", NODES, NONE, 0, "\"<>\"\n", ""),
    ("lookup|web1|facts", NODES, NONE, 0, "[\"debian\"]\n", ""),
    ("lookup|other|facts", NODES, NONE, 0, "[\"\"]\n", ""),
    ("lookup|web1|who", NODES, NONE, 0, "\"web1 itself\"\n", ""),
    (
        "lookup|lb.dom.ain|who",
        NODES,
        NONE,
        0,
        "\"lb in dom.ain\"\n",
        "",
    ),
    ("lookup|lb|at", NODES, NONE, 0, "\"production\"\n", ""),
    (
        "lookup|n|::os",
        NODES,
        NONE,
        1,
        "",
        "F20 lookup:1 LookupMissing ::os\n",
    ),
    // Streams that fail.
    ("lookup|n|b", NUMBERS, (1, 0, 0), 12, "", "read fault\n"),
    ("lookup|n|b", NUMBERS, (0, 1, 0), 13, "", ""),
    ("lookup|n|b", NUMBERS, (0, 0, 1), 0, "1\n", ""),
    (
        "lookup|n|z",
        NUMBERS,
        (0, 1, 0),
        1,
        "",
        "F20 lookup:1 LookupMissing z\n",
    ),
    ("lookup|n|z", NUMBERS, (0, 0, 1), 13, "", ""),
    // Facts and data of the nodes that ask, one request after another.
    (
        "sequence",
        r#"{"bundle": 1, "files": {"manifests/site.pp": "node default { @@host { $trusted['certname']: ip => $facts['networking']['ip'], tag => 'web' } }\nnode 'lb' { Host <<| tag == 'web' |>> }\n"}, "nodes": {"lb": {}, "web1": {"networking": {"ip": "10.0.0.1"}}}, "requests": [{"node": "lb"}, {"node": "web1"}, {"node": "lb"}, {"deactivate": "web1"}, {"node": "lb"}]}"#,
        NONE,
        0,
        r#"{"entry":0,"journal":2,"kind":"open","site":{"files":{"manifests/site.pp":"node default { @@host { $trusted['certname']: ip => $facts['networking']['ip'], tag => 'web' } }\nnode 'lb' { Host <<| tag == 'web' |>> }\n"},"nodes":{"lb":{},"web1":{"networking":{"ip":"10.0.0.1"}}}}}
{"author":0,"call":0,"entry":1,"facts":{},"k":1,"kind":"publish","node":"lb","set":[]}
{"author":0,"call":1,"entry":2,"facts":{"networking":{"ip":"10.0.0.1"}},"k":2,"kind":"publish","node":"web1","set":[{"at":"manifests/site.pp:1","attrs":{"ip":"10.0.0.1"},"tags":["class","host","main","web","web1"],"title":"web1","type":"Host"}]}
{"author":0,"call":2,"entry":3,"facts":{},"k":3,"kind":"publish","node":"lb","set":[]}
{"author":0,"call":3,"entry":4,"kind":"deactivate","node":"web1"}
{"author":0,"call":4,"entry":5,"facts":{},"k":5,"kind":"publish","node":"lb","set":[]}
{"entries":6}
{"catalog":{"catalog":1,"edges":[],"node":"lb","resources":[{"attrs":{},"in":[],"tags":["class","main"],"title":"main","type":"Class"}]},"entry":1,"k":1,"reply":0}
{"catalog":{"catalog":1,"edges":[],"node":"web1","resources":[{"attrs":{},"in":[],"tags":["class","main"],"title":"main","type":"Class"}]},"entry":2,"k":2,"reply":1}
{"catalog":{"catalog":1,"edges":[],"node":"lb","resources":[{"attrs":{},"in":[],"tags":["class","main"],"title":"main","type":"Class"},{"attrs":{"ip":"10.0.0.1"},"in":[0],"tags":["class","host","main","web","web1"],"title":"web1","type":"Host"}]},"entry":3,"k":3,"reply":2}
{"entry":4,"reply":3}
{"catalog":{"catalog":1,"edges":[],"node":"lb","resources":[{"attrs":{},"in":[],"tags":["class","main"],"title":"main","type":"Class"}]},"entry":5,"k":5,"reply":4}
"#,
        "",
    ),
    (
        "sequence",
        r#"{"bundle":1,"files":{"manifests/site.pp":""},"nodes":{"a":{"load":0.5,"n":3}},"requests":[{"node":"a"},{"node":"b","facts":{"load":0.5,"n":3}}]}"#,
        NONE,
        0,
        r#"{"entry":0,"journal":2,"kind":"open","site":{"files":{"manifests/site.pp":""},"nodes":{"a":{"load":null,"n":3}}}}
{"author":0,"call":0,"entry":1,"facts":{"load":null,"n":3},"k":1,"kind":"publish","node":"a","set":[]}
{"author":0,"call":1,"entry":2,"facts":{"load":null,"n":3},"k":2,"kind":"publish","node":"b","set":[]}
{"entries":3}
{"catalog":{"catalog":1,"edges":[],"node":"a","resources":[{"attrs":{},"in":[],"tags":["class","main"],"title":"main","type":"Class"}]},"entry":1,"k":1,"reply":0}
{"catalog":{"catalog":1,"edges":[],"node":"b","resources":[{"attrs":{},"in":[],"tags":["class","main"],"title":"main","type":"Class"}]},"entry":2,"k":2,"reply":1}
"#,
        "",
    ),
    (
        "sequence",
        r#"{"bundle": 1, "files": {"manifests/site.pp": "include ntp\n", "modules/ntp/manifests/init.pp": "class ntp($servers, $package = 'ntp') {\n  package { $package: ensure => installed }\n  file { '/etc/ntp.conf': content => join($servers, ' ') }\n}\n", "hiera.yaml": "{\"version\":5,\"hierarchy\":[{\"name\":\"nodes\",\"path\":\"nodes/%{trusted.certname}.json\"},{\"name\":\"common\",\"path\":\"common.json\"}]}", "data/common.json": "{\"ntp::servers\":[\"0.pool\",\"1.pool\"]}", "data/nodes/web1.json": "{\"ntp::servers\":[\"10.0.0.9\"]}"}, "nodes": {"a": {}, "web1": {}}, "requests": [{"node": "a"}, {"node": "web1"}]}"#,
        NONE,
        0,
        r#"{"entry":0,"journal":2,"kind":"open","site":{"files":{"data/common.json":"{\"ntp::servers\":[\"0.pool\",\"1.pool\"]}","data/nodes/web1.json":"{\"ntp::servers\":[\"10.0.0.9\"]}","hiera.yaml":"{\"version\":5,\"hierarchy\":[{\"name\":\"nodes\",\"path\":\"nodes/%{trusted.certname}.json\"},{\"name\":\"common\",\"path\":\"common.json\"}]}","manifests/site.pp":"include ntp\n","modules/ntp/manifests/init.pp":"class ntp($servers, $package = 'ntp') {\n  package { $package: ensure => installed }\n  file { '/etc/ntp.conf': content => join($servers, ' ') }\n}\n"},"nodes":{"a":{},"web1":{}}}}
{"author":0,"call":0,"entry":1,"facts":{},"k":1,"kind":"publish","node":"a","set":[]}
{"author":0,"call":1,"entry":2,"facts":{},"k":2,"kind":"publish","node":"web1","set":[]}
{"entries":3}
{"catalog":{"catalog":1,"edges":[],"node":"a","resources":[{"attrs":{},"in":[],"tags":["class","main"],"title":"main","type":"Class"},{"attrs":{"package":"ntp","servers":["0.pool","1.pool"]},"in":[],"tags":["class","main","ntp"],"title":"ntp","type":"Class"},{"attrs":{"ensure":"installed"},"in":[1],"tags":["class","main","ntp","package"],"title":"ntp","type":"Package"},{"attrs":{"content":"0.pool 1.pool"},"in":[1],"tags":["class","file","main","ntp"],"title":"/etc/ntp.conf","type":"File"}]},"entry":1,"k":1,"reply":0}
{"catalog":{"catalog":1,"edges":[],"node":"web1","resources":[{"attrs":{},"in":[],"tags":["class","main"],"title":"main","type":"Class"},{"attrs":{"package":"ntp","servers":["10.0.0.9"]},"in":[],"tags":["class","main","ntp"],"title":"ntp","type":"Class"},{"attrs":{"ensure":"installed"},"in":[1],"tags":["class","main","ntp","package"],"title":"ntp","type":"Package"},{"attrs":{"content":"10.0.0.9"},"in":[1],"tags":["class","file","main","ntp"],"title":"/etc/ntp.conf","type":"File"}]},"entry":2,"k":2,"reply":1}
"#,
        "",
    ),
];

#[test]
fn values_are_looked_up(rt: HostRuntime) -> Result<(), Fail> {
    for run in LOOKUPS.iter() {
        let words = run.0;
        assert!(rt; ends_so(&rt, rt.alloc(), run)?, "{words}");
    }
    Ok(())
}
