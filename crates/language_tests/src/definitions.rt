//! The definitions of manifests by their names.
use crate::reading::{MAIN, fault_text, parsed};
use pp_tree::{Definition, DefinitionName, Table};
use pp_values::{Memory, Stop, Text};
use std::alloc::Global;
use std::test::Fail;

// The name of a node definition; `-` for `default`.
fn write_node(out: &mut String, name: &Option<Text>) -> Result<(), Memory> {
    match name {
        Some(name) => out.push_str(name.as_str())?,
        None => out.push_str("-")?,
    }
    Ok(())
}

fn write_name(out: &mut String, name: &DefinitionName) -> Result<(), Memory> {
    match name {
        DefinitionName::Code(name) => {
            out.push_str(name.as_str())?;
            Ok(())
        }
        DefinitionName::Node(name) => write_node(out, name),
        DefinitionName::Function(name) => {
            out.push_str(name.as_str())?;
            Ok(())
        }
    }
}

fn write_definition(out: &mut String, definition: &Definition) -> Result<(), Memory> {
    match definition {
        Definition::Class(_) => out.push_str(" class,")?,
        Definition::Define(_) => out.push_str(" define,")?,
        Definition::Node(_) => out.push_str(" node,")?,
        Definition::Function(_) => out.push_str(" function,")?,
        Definition::SameNode(first) => {
            out.push_str(" as ")?;
            write_node(out, first)?;
            out.push_str(",")?;
        }
    }
    Ok(())
}

fn table_text(alloc: Global, table: &Table) -> Result<String, Memory> {
    let mut out = String::new(alloc);
    for index in 0..table.len() {
        if let Some((name, definition)) = table.at(index) {
            write_name(&mut out, name)?;
            write_definition(&mut out, definition)?;
        }
    }
    Ok(out)
}

fn told(alloc: Global, manifest: &str) -> Result<String, Memory> {
    match parsed(alloc, MAIN, manifest) {
        Ok(file) => table_text(alloc, &file.definitions),
        Err(Stop::Fault(fault)) => Ok(fault_text(alloc, &fault)?),
        Err(Stop::Memory) => Err(Memory),
    }
}

fn defines_as(alloc: Global, manifest: &str, want: &str) -> Result<bool, Memory> {
    Ok(told(alloc, manifest)?.as_str() == want)
}

const TABLES: [(&str, &str); 12] = [
    ("", ""),
    (
        "class ::nTp { } define ntp::server() { }",
        "ntp class,ntp::server define,",
    ),
    (
        "class a { } node a, b, default { } class b { }",
        "a class,a node,b as a,- as a,b class,",
    ),
    ("node default, x { }", "- node,x as -,"),
    ("node 'X' { } node x { }", "X node,x node,"),
    ("class a { }\ndefine ::a() { }", "F1 2"),
    (
        "define a() { }\nnode b { }\nclass a { }\nnode b { }",
        "F1 3",
    ),
    ("node a { }\nnode b, c, a { }\nnode c { }", "F1 2"),
    ("node a,\na { }", "F1 2"),
    ("node default { }\nnode a, default { }", "F1 2"),
    (
        "function ::m::aB { } function ab { } class ab { } node ab { }",
        "m::aB function,ab function,ab class,ab node,",
    ),
    ("function a { }\nfunction ::a() >> B { }", "F1 2"),
];

#[test]
fn definitions_by_their_names(rt: HostRuntime) -> Result<(), Fail> {
    for (manifest, want) in TABLES.iter() {
        assert!(rt; defines_as(rt.alloc(), manifest, want)?, "{manifest}");
    }
    Ok(())
}

// What the table has under the name of a class or a define.
fn found_text(alloc: Global, table: &Table, name: &str) -> Result<String, Memory> {
    let written = Text::from_str(alloc, name)?;
    let name = DefinitionName::code(alloc, &written)?;
    let mut out = String::new(alloc);
    match table.get(&name) {
        Some(definition) => write_definition(&mut out, definition)?,
        None => out.push_str(" nothing,")?,
    }
    Ok(out)
}

fn found(alloc: Global, manifest: &str, name: &str) -> Result<String, Memory> {
    match parsed(alloc, MAIN, manifest) {
        Ok(file) => found_text(alloc, &file.definitions, name),
        Err(Stop::Fault(fault)) => Ok(fault_text(alloc, &fault)?),
        Err(Stop::Memory) => Err(Memory),
    }
}

fn finds_as(alloc: Global, manifest: &str, name: &str, want: &str) -> Result<bool, Memory> {
    Ok(found(alloc, manifest, name)?.as_str() == want)
}

const FOUND: [(&str, &str, &str); 4] = [
    ("class ntp { } node a { }", "ntp", " class,"),
    ("class ntp { } define b::c() { }", "::B::C", " define,"),
    ("node a { }", "a", " nothing,"),
    ("", "a", " nothing,"),
];

#[test]
fn definitions_are_found(rt: HostRuntime) -> Result<(), Fail> {
    for (manifest, name, want) in FOUND.iter() {
        assert!(rt; finds_as(rt.alloc(), manifest, name, want)?, "{name}");
    }
    Ok(())
}
