//! Whether a native type takes an attribute: what no statement asks by this call.
use pp_values::{Memory, Place, Stop, Text, What};
use res_core::check_attribute;
use sample_values::reference;
use std::alloc::Global;
use std::test::Fail;

/// A kind, the name of an attribute, and what is told of `KIND[/x]`.
const ATTRIBUTES: [(&str, &str, &str); 6] = [
    ("file", "mode", "taken"),
    ("file", "require", "taken"),
    ("file", "size", "F10 size"),
    ("file", "Mode", "F10 Mode"),
    ("web::vhost", "mode", "F5 web::vhost"),
    ("class", "require", "F5 class"),
];

fn told(alloc: Global, kind: &str, name: &str) -> Result<String, Memory> {
    let what = reference(alloc, kind, "/x")?;
    let name = Text::from_str(alloc, name)?;
    let file = Text::from_str(alloc, "site.pp")?;
    match check_attribute(alloc, &what, &name, &Place { file, line: 3 }) {
        Ok(()) => Ok(String::from_str(alloc, "taken")?),
        Err(stop) => told_of_stop(alloc, &stop),
    }
}

fn told_of_stop(alloc: Global, stop: &Stop) -> Result<String, Memory> {
    match stop {
        Stop::Fault(fault) => told_of_fault(alloc, fault.what.get()),
        Stop::Memory => Err(Memory),
    }
}

fn told_of_fault(alloc: Global, what: &What) -> Result<String, Memory> {
    let mut out = String::new(alloc);
    match what {
        What::UnknownType(kind) => write!(out, "F5 {}", kind.as_str())?,
        What::UnknownParameter { reference: _, name } => write!(out, "F10 {}", name.as_str())?,
        _ => out.push_str("another fault")?,
    }
    Ok(out)
}

fn is_told(alloc: Global, row: &(&str, &str, &str)) -> Result<bool, Memory> {
    Ok(told(alloc, row.0, row.1)?.as_str() == row.2)
}

#[test]
fn native_types_take_their_attributes(rt: HostRuntime) -> Result<(), Fail> {
    for row in ATTRIBUTES.iter() {
        assert!(rt; is_told(rt.alloc(), row)?, "{} {}", row.0, row.1);
    }
    Ok(())
}
