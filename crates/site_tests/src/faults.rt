//! Copies and lines of faults that no manifest comes to yet.
use pp_values::{Fault, Memory, Place, Refs, Subject, Text, What};
use sample_values::{kind, reference};
use site_docs::fault_text;
use std::alloc::Global;
use std::test::Fail;

fn cycle(alloc: Global) -> Result<What, Memory> {
    let mut references = Refs::new(alloc);
    references.push(reference(alloc, "file", "/a")?)?;
    references.push(reference(alloc, "notify", "f")?)?;
    Ok(What::Cycle(references))
}

fn default_set(alloc: Global) -> Result<What, Memory> {
    let name = Text::from_str(alloc, "mode")?;
    let subject = Subject::Kind(kind(alloc, "web::vhost")?);
    Ok(What::AlreadySet { subject, name })
}

/// A fault of a shape, by its number.
fn what(alloc: Global, number: u32) -> Result<What, Memory> {
    match number {
        15 => default_set(alloc),
        16 => Ok(What::NoOverrideTarget(reference(alloc, "file", "/a")?)),
        _ => cycle(alloc),
    }
}

fn fault(alloc: Global, number: u32) -> Result<Fault, Memory> {
    let file = Text::from_str(alloc, "m.pp")?;
    let what = what(alloc, number)?;
    let at = Place { file, line: 7 };
    Fault::new(alloc, at, what)
}

fn is_told(alloc: Global, fault: &Fault, want: &str) -> Result<bool, Memory> {
    Ok(fault_text(alloc, fault)?.is(want))
}

fn is_copied(alloc: Global, fault: &Fault, want: &str) -> Result<bool, Memory> {
    let copied = fault.copy(alloc)?;
    is_told(alloc, &copied, want)
}

/// Whether the fault's line is this one, and so is its copy's.
fn tells_as(alloc: Global, number: u32, want: &str) -> Result<bool, Memory> {
    let fault = fault(alloc, number)?;
    Ok(is_told(alloc, &fault, want)? && is_copied(alloc, &fault, want)?)
}

const FAULTS: [(u32, &str); 3] = [
    (15, "F15 m.pp:7 AlreadySet Web::Vhost mode"),
    (16, "F16 m.pp:7 NoOverrideTarget File[/a]"),
    (18, "F18 m.pp:7 Cycle File[/a] -> Notify[f] -> File[/a]"),
];

#[test]
fn lines_of_faults(rt: HostRuntime) -> Result<(), Fail> {
    for (number, want) in FAULTS.iter() {
        assert!(rt; tells_as(rt.alloc(), *number, want)?, "{want}");
    }
    Ok(())
}
