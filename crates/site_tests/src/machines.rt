//! Catalogs that are applied to machines of which one call fails by its number.
use crate::commands::{FILES, NONE, Run, ends_so_on};
use std::test::Fail;

/// Which call fails, counted from 1, and the run. The first one asks for the first file's content, the sixth one
/// refreshes the service.
const RUNS: [(u64, Run<'static>); 2] = [
    (
        1,
        (
            "apply|n",
            FILES,
            NONE,
            6,
            r#"{"changed":1,"failed":1,"node":"n","noop":0,"report":2,"resources":[{"changes":[],"fault":"holds content","ref":"File[/a]","refreshed":false,"status":"failed"},{"changes":["content"],"fault":null,"ref":"File[/b]","refreshed":false,"status":"changed"},{"changes":[],"fault":null,"ref":"Service[s]","refreshed":false,"status":"skipped"}]}
{"failing":[],"machine":1,"state":{"File[/b]":{"content":"y"},"Service[s]":{"ensure":"running"}}}
"#,
            "",
        ),
    ),
    (
        6,
        (
            "apply|n",
            FILES,
            NONE,
            6,
            r#"{"changed":2,"failed":1,"node":"n","noop":0,"report":2,"resources":[{"changes":["content"],"fault":null,"ref":"File[/a]","refreshed":false,"status":"changed"},{"changes":["content"],"fault":null,"ref":"File[/b]","refreshed":false,"status":"changed"},{"changes":[],"fault":"refresh","ref":"Service[s]","refreshed":false,"status":"failed"}]}
{"failing":[],"machine":1,"state":{"File[/a]":{"content":"x"},"File[/b]":{"content":"y"},"Service[s]":{"ensure":"running"}}}
"#,
            "",
        ),
    ),
];

#[test]
fn calls_of_a_machine_fail(rt: HostRuntime) -> Result<(), Fail> {
    for (failing, run) in RUNS.iter() {
        assert!(rt;
            ends_so_on(&rt, rt.alloc(), run, &[*failing])?,
            "call {failing}"
        );
    }
    Ok(())
}
