//! The properties of the native types in their order, and names that no manifest gives to these calls.
use pp_values::{Memory, Place, Text, Value};
use res_core::{Form, Line, Lines, is_relation_name, native, property};
use std::alloc::Global;
use std::test::Fail;

/// A kind, and its properties in order.
const NATIVES: [(&str, &str); 9] = [
    ("file", " ensure content target owner group mode"),
    ("package", " ensure"),
    ("service", " ensure enable"),
    ("user", " ensure uid gid home shell comment groups"),
    ("group", " ensure gid"),
    ("host", " ensure ip host_aliases comment target"),
    (
        "cron",
        " ensure command user hour minute month monthday weekday",
    ),
    ("exec", ""),
    ("notify", ""),
];

const OTHERS: [&str; 7] = [
    "File",
    "::file",
    "files",
    "class",
    "web::vhost",
    "schedule",
    "",
];

const RELATIONS: [(&str, bool); 8] = [
    ("before", true),
    ("require", true),
    ("notify", true),
    ("subscribe", true),
    ("tag", false),
    ("noop", false),
    ("loglevel", false),
    ("Before", false),
];

fn place(alloc: Global) -> Result<Place, Memory> {
    let file = Text::from_str(alloc, "site.pp")?;
    Ok(Place { file, line: 3 })
}

fn append(out: &mut String, name: &str) -> Result<(), Memory> {
    out.push_str(" ")?;
    out.push_str(name)?;
    Ok(())
}

/// The properties up to the ninth, with a blank before each.
fn properties(alloc: Global, kind: &Text) -> Result<Text, Memory> {
    let mut out = String::new(alloc);
    if let Some(native) = native(kind) {
        for at in 0..9 {
            if let Some(name) = property(native, at) {
                append(&mut out, name)?;
            }
        }
    }
    Ok(Text::new(out))
}

fn has_properties(alloc: Global, row: &(&str, &str)) -> Result<bool, Memory> {
    let kind = Text::from_str(alloc, row.0)?;
    Ok(properties(alloc, &kind)?.is(row.1))
}

fn is_native(alloc: Global, kind: &str) -> Result<bool, Memory> {
    Ok(native(&Text::from_str(alloc, kind)?).is_some())
}

fn relates(alloc: Global, name: &str) -> Result<bool, Memory> {
    Ok(is_relation_name(&Text::from_str(alloc, name)?))
}

/// A line that is put into a list, and its parts.
fn line_parts(alloc: Global) -> Result<bool, Memory> {
    let name = Text::from_str(alloc, "mode")?;
    let at = place(alloc)?;
    let mut lines = Lines::new(alloc);
    lines.push(Line {
        name,
        append: true,
        value: Value::Int(7),
        at,
    })?;
    match lines.as_slice() {
        [line] => {
            let append = line.append;
            let (name, value, at) = line.copy(alloc)?.into_parts();
            Ok(append && name.is("mode") && matches!(&value, Value::Int(7)) && at.line == 3)
        }
        _ => Ok(false),
    }
}

#[test]
fn native_types_have_their_properties(rt: HostRuntime) -> Result<(), Fail> {
    for row in NATIVES.iter() {
        assert!(rt; has_properties(rt.alloc(), row)?, "{}", row.0);
    }
    Ok(())
}

#[test]
fn other_kinds_are_not_native(rt: HostRuntime) -> Result<(), Fail> {
    for kind in OTHERS.iter() {
        assert!(rt; !is_native(rt.alloc(), kind)?, "{kind}");
    }
    Ok(())
}

#[test]
fn some_metaparameters_relate(rt: HostRuntime) -> Result<(), Fail> {
    for (name, does) in RELATIONS.iter() {
        assert!(rt; relates(rt.alloc(), name)? == *does, "{name}");
    }
    Ok(())
}

#[test]
fn lines_are_taken_apart(rt: HostRuntime) -> Result<(), Fail> {
    assert!(rt; line_parts(rt.alloc())?);
    assert!(rt; Form::Virtual != Form::Exported);
    Ok(())
}
