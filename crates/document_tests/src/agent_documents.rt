//! Reports and machines out of their texts, and written again; and machines as a bundle spells them.
use agent_docs::{
    DocStop, MachineStop, machine_of, read_machine, read_report, write_machine, write_report,
};
use pp_values::Memory;
use serde_json::Value as Json;
use std::alloc::Global;
use std::test::Fail;

/// What is written for the report that was read; `None` where the text is no report.
fn report_again(alloc: Global, text: &str) -> Result<Option<String>, Fail> {
    match read_report(alloc, text) {
        Ok(report) => Ok(Some(write_report(alloc, &report)?.into_string(alloc)?)),
        Err(DocStop::Bad(_line)) => Ok(None),
        Err(DocStop::Memory) => Err(Fail::from(Memory)),
    }
}

fn gives_report(alloc: Global, text: &str, wanted: &str) -> Result<bool, Fail> {
    match report_again(alloc, text)? {
        Some(again) => Ok(again.as_str() == wanted),
        None => Ok(false),
    }
}

/// The first bad line; 0 where the text is a report.
fn bad_report_line(alloc: Global, text: &str) -> Result<u32, Fail> {
    match read_report(alloc, text) {
        Ok(_report) => Ok(0),
        Err(DocStop::Bad(line)) => Ok(line),
        Err(DocStop::Memory) => Err(Fail::from(Memory)),
    }
}

const REPORTS: [&str; 3] = [
    "{\"changed\":0,\"failed\":0,\"node\":\"\",\"noop\":0,\"report\":2,\"resources\":[]}\n",
    "{\"changed\":1,\"failed\":1,\"node\":\"n\",\"noop\":0,\"report\":2,\"resources\":[{\"changes\":[\"ensure\",\"mode\"],\"fault\":\"write owner\",\"ref\":\"Web::Vhost[a[0]]\",\"refreshed\":false,\"status\":\"failed\"},{\"changes\":[],\"fault\":null,\"ref\":\"Service[s]\",\"refreshed\":false,\"status\":\"skipped\"}]}\n",
    "{\"changed\":1,\"failed\":0,\"node\":\"n\\n\",\"noop\":1,\"report\":2,\"resources\":[{\"changes\":[\"content\"],\"fault\":null,\"ref\":\"File[/a]\",\"refreshed\":false,\"status\":\"noop\"},{\"changes\":[],\"fault\":null,\"ref\":\"Exec[e]\",\"refreshed\":true,\"status\":\"changed\"}]}\n",
];

#[test]
fn reports_are_read(rt: HostRuntime) -> Result<(), Fail> {
    for text in REPORTS.iter() {
        assert!(rt; gives_report(rt.alloc(), text, text)?, "{text}");
    }
    Ok(())
}

const FIRST_VERSION: &str =
    "{\"changed\":1,\"failed\":0,\"node\":\"n\",\"report\":1,\"resources\":[{\"changes\":[\"run\"],\"fault\":null,\"ref\":\"Exec[e]\",\"refreshed\":false,\"status\":\"changed\"}]}\n";

const SECOND_VERSION: &str =
    "{\"changed\":1,\"failed\":0,\"node\":\"n\",\"noop\":0,\"report\":2,\"resources\":[{\"changes\":[\"run\"],\"fault\":null,\"ref\":\"Exec[e]\",\"refreshed\":false,\"status\":\"changed\"}]}\n";

#[test]
fn the_first_version_is_read(rt: HostRuntime) -> Result<(), Fail> {
    assert!(rt; gives_report(rt.alloc(), FIRST_VERSION, SECOND_VERSION)?);
    Ok(())
}

const NO_REPORTS: [(&str, u32); 9] = [
    ("", 1),
    (
        "{\"changed\":0,\"failed\":0,\"node\":\"\",\"noop\":0,\"report\":2,\"resources\":[]}",
        1,
    ),
    (
        "{\"changed\":0,\"failed\":0,\"node\":\"\",\"noop\":0,\"report\":2,\"resources\":[]}\n\n",
        2,
    ),
    (
        "{\"changed\":0,\"failed\":0,\"node\":\"\",\"noop\":0,\"report\":2,\"resources\":[]}\nx",
        2,
    ),
    // A second spelling, another count, and a third version.
    (
        "{\"changed\":0, \"failed\":0,\"node\":\"\",\"noop\":0,\"report\":2,\"resources\":[]}\n",
        1,
    ),
    (
        "{\"changed\":1,\"failed\":0,\"node\":\"\",\"noop\":0,\"report\":2,\"resources\":[]}\n",
        1,
    ),
    (
        "{\"changed\":0,\"failed\":0,\"node\":\"\",\"noop\":0,\"report\":3,\"resources\":[]}\n",
        1,
    ),
    // The first version has no count of what was only looked at, and no such line.
    (
        "{\"changed\":0,\"failed\":0,\"node\":\"\",\"noop\":0,\"report\":1,\"resources\":[]}\n",
        1,
    ),
    (
        "{\"changed\":0,\"failed\":0,\"node\":\"\",\"report\":1,\"resources\":[{\"changes\":[],\"fault\":null,\"ref\":\"File[/a]\",\"refreshed\":false,\"status\":\"noop\"}]}\n",
        1,
    ),
];

#[test]
fn no_reports(rt: HostRuntime) -> Result<(), Fail> {
    for (text, line) in NO_REPORTS.iter() {
        assert!(rt; bad_report_line(rt.alloc(), text)? == *line, "{text}");
    }
    Ok(())
}

/// The first bad line; 0 where the text is read, and written again is the same.
fn bad_machine_line(alloc: Global, text: &str) -> Result<u32, Fail> {
    match read_machine(alloc, text) {
        Ok(machine) => {
            if write_machine(alloc, &machine)?.is(text) {
                Ok(0)
            } else {
                Ok(u32::MAX)
            }
        }
        Err(DocStop::Bad(line)) => Ok(line),
        Err(DocStop::Memory) => Err(Fail::from(Memory)),
    }
}

const MACHINES: [(&str, u32); 7] = [
    ("{\"failing\":[],\"machine\":1,\"state\":{}}\n", 0),
    (
        "{\"failing\":[\"write File[/a] mode\",\"refresh Exec[e]\"],\"machine\":1,\"state\":{\"File[/a]\":{\"content\":{\"__ptype\":\"Hash\",\"__pvalue\":[1,null]},\"mode\":\"0644\"},\"Service[s]\":{}}}\n",
        0,
    ),
    ("{\"failing\":[],\"machine\":1,\"state\":{}}", 1),
    ("{\"failing\":[],\"machine\":1,\"state\":{}}\n{}\n", 2),
    ("{\"failing\":[],\"state\":{}}\n", 1),
    (
        "{\"failing\":[],\"machine\":1,\"state\":{\"b\":{},\"a\":{}}}\n",
        1,
    ),
    (
        "{\"failing\":[],\"machine\":1,\"state\":{\"a\":{\"x\":1.0}}}\n",
        1,
    ),
];

#[test]
fn machines_are_read(rt: HostRuntime) -> Result<(), Fail> {
    for (text, line) in MACHINES.iter() {
        assert!(rt; bad_machine_line(rt.alloc(), text)? == *line, "{text}");
    }
    Ok(())
}

/// What is written for the machine that the JSON says, or the path of what is bad.
fn said(alloc: Global, text: &str) -> Result<String, Fail> {
    match machine_of(alloc, &Json::from_str(alloc, text)?) {
        Ok(machine) => Ok(write_machine(alloc, &machine)?.into_string(alloc)?),
        Err(MachineStop::Bad(path)) => Ok(path.into_string(alloc)?),
        Err(MachineStop::Memory) => Err(Fail::from(Memory)),
    }
}

fn says(alloc: Global, text: &str, wanted: &str) -> Result<bool, Fail> {
    Ok(said(alloc, text)?.as_str() == wanted)
}

const MEMBERS: [(&str, &str); 9] = [
    ("{}", "{\"failing\":[],\"machine\":1,\"state\":{}}\n"),
    (
        "{ \"x\": 1, \"state\": {\"b\": {}, \"a\": {\"y\": 2, \"x\": null}}, \"failing\": [\"f\"] }",
        "{\"failing\":[\"f\"],\"machine\":1,\"state\":{\"a\":{\"x\":null,\"y\":2},\"b\":{}}}\n",
    ),
    ("[]", "machine"),
    ("{\"failing\":{},\"state\":[]}", "machine.failing"),
    ("{\"failing\":[\"a\",1]}", "machine.failing.1"),
    ("{\"state\":[]}", "machine.state"),
    ("{\"state\":{\"b\":[],\"a\":{\"x\":1}}}", "machine.state.b"),
    (
        "{\"state\":{\"a\":{\"x\":1,\"w\":1.5}}}",
        "machine.state.a.w",
    ),
    (
        "{\"state\":{\"a\":{\"x\":{\"__ptype\":\"Hash\",\"__pvalue\":[]}}}}",
        "machine.state.a.x",
    ),
];

#[test]
fn members_of_bundles(rt: HostRuntime) -> Result<(), Fail> {
    for (text, wanted) in MEMBERS.iter() {
        assert!(rt; says(rt.alloc(), text, wanted)?, "{text}");
    }
    Ok(())
}
