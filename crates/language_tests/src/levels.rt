use crate::reading::{MAIN, reads_as};
use std::alloc::{AllocError, Global};
use std::test::Fail;
use std::thread;

// So many of the one, the middle, and as many of the other.
fn nested(
    alloc: Global,
    count: usize,
    before: &str,
    middle: &str,
    behind: &str,
) -> Result<String, AllocError> {
    let mut out = String::new(alloc);
    for _turn in 0..count {
        out.push_str(before)?;
    }
    out.push_str(middle)?;
    for _turn in 0..count {
        out.push_str(behind)?;
    }
    Ok(out)
}

// What opens levels: how often 200 levels of it stand in one another, and what stands before, in and behind them.
const SORTS: [(usize, &str, &str, &str); 17] = [
    (200, "[", "1", "]"),
    (200, "(", "1", ")"),
    (200, "{ a => ", "1", "}"),
    (200, "f(", "1", ")"),
    (200, "$a[", "1", "]"),
    (200, "!", "$x", ""),
    (200, "- ", "$x", ""),
    (100, "!(", "1", ")"),
    (200, "$a = ", "1", ""),
    (200, "if ", "a", " { }"),
    (200, "unless ", "a", " { }"),
    (200, "case ", "a", " { }"),
    (200, "if a { } elsif ", "b", " { }"),
    (200, "if a { ", "b", " }"),
    (100, "f() |$x = ", "1", "| { }"),
    (200, "\"${", "$x", "}\""),
    (200, "$a ? { 1 => ", "2", " }"),
];

// Whether 200 levels are read, and dropped, and the token that opens level 201 is refused.
fn bounds_levels(
    alloc: Global,
    count: usize,
    before: &str,
    middle: &str,
    behind: &str,
) -> Result<bool, AllocError> {
    let lawful = nested(alloc, count, before, middle, behind)?;
    let too_deep = nested(alloc, 1, before, lawful.as_str(), behind)?;
    let is_read = reads_as(alloc, MAIN, lawful.as_str(), "1 0")?;
    Ok(is_read && reads_as(alloc, MAIN, too_deep.as_str(), "F29 1")?)
}

// The first of the sorts whose levels are read in another way.
fn misread_sort(alloc: Global) -> Result<Option<&'static str>, AllocError> {
    for (count, before, middle, behind) in SORTS.iter() {
        if !bounds_levels(alloc, *count, before, middle, behind)? {
            return Ok(Some(before));
        }
    }
    Ok(None)
}

// On the stack of the first thread and on the ordinary one of another.
#[test]
fn two_hundred_levels_are_read(rt: HostRuntime) -> Result<(), Fail> {
    let alloc = rt.alloc();
    let (here, there) = thread::join(&rt, || misread_sort(alloc), || misread_sort(alloc));
    assert_eq!(rt; here?, None);
    assert_eq!(rt; there?, None);
    Ok(())
}
