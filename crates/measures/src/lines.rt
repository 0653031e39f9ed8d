ghost use Rattle.std.specs.Prelude.{◌≡◌, IfOk, None};

use override_rules::{OverrideLine, Overrides, Right};
use pp_values::{Kind, Memory, Place, Reference, Stop, Text, Texts, Value};
use res_book::{Book, Mode};
use res_core::{Attributes, Declared, KnownNames, Resource, Tags};
use std::alloc::Global;

/// How many lines there are, where the attribute that they set has a value.
pub fn overridden(alloc: Global, count: u32) -> Result<usize, Stop> {
    let mut book = Book::new(alloc);
    let number = book.declare(alloc, declared(alloc)?, Mode::Plain)?;
    let mut overrides = Overrides::new(alloc);
    for at in 0..count {
        overrides.add_line(alloc, &book, line(alloc, at)?)?;
    }
    if number >= book.count() {
        return Ok(0);
    }
    let mode = Text::from_str(alloc, "mode")?;
    match overrides.attribute(alloc, &book, number, &mode)? {
        Some(_value) => Ok(count as usize),
        None => Ok(0),
    }
}

fn declared(alloc: Global) -> Result<Declared, Memory>
    ensures { IfOk result (λ d. d.container ≡ None) }
{
    let mut known = Texts::new(alloc);
    known.push(Text::from_str(alloc, "mode")?)?;
    Ok(Declared {
        at: place(alloc, 1)?,
        scope: 0,
        container: None,
        class: Text::from_str(alloc, "class main")?,
        known: KnownNames::listed(known),
        item: Resource {
            kind: Kind::from_str(alloc, "file")?,
            title: Text::from_str(alloc, "/x")?,
            attributes: Attributes::new(alloc),
            tags: Tags::new(alloc),
        },
    })
}

fn line(alloc: Global, number: u32) -> Result<OverrideLine, Memory> {
    Ok(OverrideLine {
        target: Reference {
            kind: Kind::from_str(alloc, "file")?,
            title: Text::from_str(alloc, "/x")?,
        },
        name: Text::from_str(alloc, "mode")?,
        append: false,
        value: Value::Int(number as i64),
        at: place(alloc, 2)?,
        right: Right::Any,
    })
}

fn place(alloc: Global, line: u32) -> Result<Place, Memory> {
    Ok(Place {
        file: Text::from_str(alloc, "manifests/site.pp")?,
        line,
    })
}
