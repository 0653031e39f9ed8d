//! What no manifest has: tags of a resource that stands in nothing.
use pp_values::{Memory, Text, Texts};
use res_core::{Tags, tags_of};
use std::alloc::Global;
use std::test::Fail;

// The tags with a blank before each.
fn spelled(alloc: Global, tags: &Tags) -> Result<String, Memory> {
    let mut out = String::new(alloc);
    for tag in tags.as_slice() {
        out.push_str(" ")?;
        out.push_str(tag.as_str())?;
    }
    Ok(out)
}

fn are_tagged(alloc: Global) -> Result<bool, Memory> {
    let kind = Text::from_str(alloc, "web::vhost")?;
    let title = Text::from_str(alloc, "x")?;
    let tags = tags_of(alloc, &kind, &title, &Texts::new(alloc), &Tags::new(alloc))?;
    Ok(spelled(alloc, &tags)?.as_str() == " vhost web web::vhost x")
}

#[test]
fn tags_of_what_stands_in_nothing(rt: HostRuntime) -> Result<(), Fail> {
    assert!(rt; are_tagged(rt.alloc())?);
    Ok(())
}
