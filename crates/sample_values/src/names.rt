//! Names, texts and facts.
ghost use Rattle.std.specs.Prelude.{IsTrue};
ghost use Rattle.pp_values.specs.Views.{view};
ghost use Rattle.pp_values.specs.Facts.{are_facts};

use pp_values::{Kind, Memory, Pairs, Reference, Text, Value};
use std::alloc::Global;

/// Whether what was made is this text.
pub fn says(made: Result<Text, Memory>, want: &str) -> Result<bool, Memory> {
    Ok(made?.is(want))
}

/// The kind of resource of this name. A text that is none is told as want of memory.
pub fn kind(alloc: Global, name: &str) -> Result<Kind, Memory> {
    Kind::from_text(Text::from_str(alloc, name)?).ok_or(Memory)
}

pub fn reference(alloc: Global, name: &str, title: &str) -> Result<Reference, Memory> {
    let kind = kind(alloc, name)?;
    let title = Text::from_str(alloc, title)?;
    Ok(Reference { kind, title })
}

pub fn no_facts(alloc: Global) -> Value
    ensures { IsTrue (are_facts (view result)) }
{
    Value::Hash(Pairs::new(alloc))
}
