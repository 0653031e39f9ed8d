//! Copies of lists that the program does not copy yet.
use pp_values::{
    FactPairs, Memory, Place, Places, Reference, Refs, Text, Value, copy_places, copy_refs,
};
use sample_values::reference;
use std::alloc::Global;
use std::test::Fail;

fn is_reference(reference: &Reference, kind: &str, title: &str) -> bool {
    reference.kind.is(kind) && reference.title.is(title)
}

fn references(alloc: Global) -> Result<Refs, Memory> {
    let mut list = Refs::new(alloc);
    list.push(reference(alloc, "file", "/a")?)?;
    list.push(reference(alloc, "notify", "b")?)?;
    copy_refs(alloc, &list)
}

fn copies_references(alloc: Global) -> Result<bool, Memory> {
    let list = references(alloc)?;
    Ok(match list.as_slice() {
        [a, b] => is_reference(a, "file", "/a") && is_reference(b, "notify", "b"),
        _ => false,
    })
}

fn places(alloc: Global) -> Result<Places, Memory> {
    let file = Text::from_str(alloc, "site.pp")?;
    let mut list = Places::new(alloc);
    list.push(Place { file, line: 3 })?;
    copy_places(alloc, &list)
}

fn copies_places(alloc: Global) -> Result<bool, Memory> {
    let list = places(alloc)?;
    Ok(match list.as_slice() {
        [place] => place.file.is("site.pp") && place.line == 3,
        _ => false,
    })
}

fn nodes(alloc: Global) -> Result<FactPairs, Memory> {
    let node = Text::from_str(alloc, "n0")?;
    let mut list = FactPairs::new(alloc);
    list.push(node, Value::Int(5))?;
    list.copy(alloc)
}

fn copies_nodes(alloc: Global) -> Result<bool, Memory> {
    let list = nodes(alloc)?;
    Ok(match list.as_slice() {
        [(node, value)] => node.is("n0") && is_five(value),
        _ => false,
    })
}

fn is_five(value: &Value) -> bool {
    match value {
        Value::Int(number) => *number == 5,
        _ => false,
    }
}

#[test]
fn lists_are_copied(rt: HostRuntime) -> Result<(), Fail> {
    assert!(rt; copies_references(rt.alloc())?, "references");
    assert!(rt; copies_places(rt.alloc())?, "places");
    assert!(rt; copies_nodes(rt.alloc())?, "nodes");
    Ok(())
}
