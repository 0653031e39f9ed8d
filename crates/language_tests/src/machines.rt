//! A machine in memory: what its calls answer one after another, and what its document holds.
use agent_machine::{
    DocMachine, FailingTexts, Holds, Machine, MachineDoc, Properties, States, Wrote,
};
use pp_values::{Memory, Reference, Text, Texts, Value, is_plain_value};
use sample_values::reference;
use std::alloc::Global;
use std::test::Fail;

/// A call, its property with a value, and its answer.
type Call = (&'static str, &'static str, &'static str, &'static str);

/// The title of a file, and four calls on it. `File[/a]` has the mode 0644; a write of its owner, a refresh of `File[/b]`
/// and each third call fail.
const CALLS: [(&str, [Call; 4]); 6] = [
    (
        "/a",
        [
            ("holds", "mode", "0644", "yes"),
            ("write", "mode", "0600", "done"),
            ("holds", "mode", "0600", "failed"),
            ("holds", "mode", "0600", "yes"),
        ],
    ),
    (
        "/a",
        [
            ("holds", "ensure", "present", "yes"),
            ("write", "ensure", "absent", "done"),
            ("write", "ensure", "present", "failed"),
            ("holds", "ensure", "present", "no"),
        ],
    ),
    (
        "/a",
        [
            ("write", "ensure", "absent", "done"),
            ("write", "mode", "0600", "done"),
            ("refresh", "", "", "failed"),
            ("holds", "mode", "0600", "yes"),
        ],
    ),
    (
        "/a",
        [
            ("write", "owner", "root", "failed"),
            ("refresh", "", "", "yes"),
            ("holds", "mode", "0644", "failed"),
            ("holds", "owner", "root", "no"),
        ],
    ),
    (
        "/b",
        [
            ("refresh", "", "", "failed"),
            ("holds", "ensure", "absent", "yes"),
            ("holds", "ensure", "absent", "failed"),
            ("refresh", "", "", "failed"),
        ],
    ),
    (
        "/b",
        [
            ("write", "owner", "root", "done"),
            ("holds", "ensure", "present", "yes"),
            ("write", "mode", "0600", "failed"),
            ("holds", "mode", "0600", "no"),
        ],
    ),
];

/// A property that is put into those of a file, and another one behind it; and what its mode is then.
const PUT: [(&str, &str, &str, &str, &str); 3] = [
    ("mode", "0644", "owner", "root", "0644"),
    ("mode", "0644", "mode", "0600", "0600"),
    ("owner", "root", "group", "root", ""),
];

fn failing(alloc: Global) -> Result<FailingTexts, Memory> {
    let mut texts = Texts::new(alloc);
    for text in ["write File[/a] owner", "refresh File[/b]"] {
        texts.push(Text::from_str(alloc, text)?)?;
    }
    FailingTexts::from_texts(alloc, texts)
}

fn put(alloc: Global, properties: &mut Properties, name: &str, word: &str) -> Result<bool, Memory> {
    let name = Text::from_str(alloc, name)?;
    let value = Value::Text(Text::from_str(alloc, word)?);
    if !is_plain_value(&value) {
        return Ok(false);
    }
    properties.put(name, value)?;
    Ok(true)
}

fn states(alloc: Global) -> Result<States, Memory> {
    let mut properties = Properties::new(alloc);
    let _is_plain = put(alloc, &mut properties, "mode", "0644")?;
    let mut states = States::new(alloc);
    states.put(Text::from_str(alloc, "File[/a]")?, properties)?;
    Ok(states)
}

fn machine(alloc: Global) -> Result<DocMachine, Memory> {
    let failing = failing(alloc)?;
    let state = states(alloc)?;
    DocMachine::new(alloc, MachineDoc { failing, state }, &[3])
}

fn told(holds: Holds) -> &'static str {
    match holds {
        Holds::Yes => "yes",
        Holds::No => "no",
        Holds::Failed => "failed",
    }
}

fn told_of_write(wrote: Wrote) -> &'static str {
    match wrote {
        Wrote::Done => "done",
        Wrote::Failed => "failed",
        Wrote::Memory => "memory",
    }
}

fn answer(
    machine: &mut DocMachine,
    way: &str,
    what: &Reference,
    name: &Text,
    value: &Value,
) -> &'static str {
    match way {
        "holds" => told(machine.holds(what, name, value)),
        "write" if is_plain_value(value) => told_of_write(machine.write(what, name, value)),
        "refresh" => told(machine.refresh(what)),
        _ => "no call",
    }
}

fn is_answered(
    alloc: Global,
    machine: &mut DocMachine,
    what: &Reference,
    call: &Call,
) -> Result<bool, Memory> {
    let name = Text::from_str(alloc, call.1)?;
    let value = Value::Text(Text::from_str(alloc, call.2)?);
    Ok(answer(machine, call.0, what, &name, &value) == call.3)
}

fn are_answered(alloc: Global, row: &(&str, [Call; 4])) -> Result<bool, Memory> {
    let what = reference(alloc, "file", row.0)?;
    let mut machine = machine(alloc)?;
    for call in row.1.iter() {
        if !is_answered(alloc, &mut machine, &what, call)? {
            return Ok(false);
        }
    }
    Ok(true)
}

/// The text that a file's mode is, or none.
fn mode(alloc: Global, properties: Properties) -> Result<Text, Memory> {
    let mut states = States::new(alloc);
    states.put(Text::from_str(alloc, "File[/a]")?, properties)?;
    let what = reference(alloc, "file", "/a")?;
    let name = Text::from_str(alloc, "mode")?;
    match states.get(&what) {
        Some(properties) => match properties.get(&name) {
            Some(Value::Text(text)) => text.copy(alloc),
            _ => Text::from_str(alloc, ""),
        },
        None => Text::from_str(alloc, "no record"),
    }
}

fn are_put(alloc: Global, row: &(&str, &str, &str, &str, &str)) -> Result<bool, Memory> {
    let mut properties = Properties::new(alloc);
    let first = put(alloc, &mut properties, row.0, row.1)?;
    let second = put(alloc, &mut properties, row.2, row.3)?;
    Ok(first && second && mode(alloc, properties)?.is(row.4))
}

/// Whether texts of calls stay as they were given.
fn are_kept(alloc: Global) -> Result<bool, Memory> {
    let failing = failing(alloc)?;
    match failing.as_texts().as_slice() {
        [first, second] => Ok(first.is("write File[/a] owner") && second.is("refresh File[/b]")),
        _ => Ok(false),
    }
}

#[test]
fn calls_are_answered(rt: HostRuntime) -> Result<(), Fail> {
    for row in CALLS.iter() {
        assert!(rt; are_answered(rt.alloc(), row)?, "{} {}", row.0, row.1[0].1);
    }
    Ok(())
}

#[test]
fn properties_are_put(rt: HostRuntime) -> Result<(), Fail> {
    for row in PUT.iter() {
        assert!(rt; are_put(rt.alloc(), row)?, "{}", row.4);
    }
    Ok(())
}

#[test]
fn texts_of_calls_are_kept(rt: HostRuntime) -> Result<(), Fail> {
    assert!(rt; are_kept(rt.alloc())?);
    Ok(())
}
