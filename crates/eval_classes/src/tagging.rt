//! The tags of what is declared.
ghost use Rattle.std.specs.Prelude.{◌≡◌, map, IfOk};
ghost use Rattle.eval_classes.specs.Attributes as spec;
ghost use Rattle.pp_funcs.specs.Lists.{behind};
ghost use Rattle.pp_values.specs.TextOf.{text_of as text_of_datum};
ghost use Rattle.pp_values.specs.Views.{view};
ghost use Rattle.res_core.specs.TagNames.{tags};

use crate::flattening::flattened;
use pp_values::{Memory, Text, Texts, Value, text_of};
use res_book::Book;
use res_core::{Attributes, Tags, tags_of};
use std::alloc::Global;

/// The texts of the attribute `tag`.
pub fn given_tags(alloc: Global, attributes: &Attributes) -> Result<Texts, Memory>
    ensures { IfOk result (λ ts. ts ≡ spec.given_tags attributes.now) }
{
    let name = Text::from_str(alloc, "tag")?;
    match attributes.get(&name) {
        Some(value) => texts_in(alloc, value),
        None => Ok(Texts::new(alloc)),
    }
}

fn texts_in(alloc: Global, value: &Value) -> Result<Texts, Memory>
    ensures { IfOk result (λ ts. ts ≡ spec.texts_in (view value.now)) }
{
    let found = flattened(alloc, value)?;
    texts_of(alloc, found.as_slice())
}

fn texts_of(alloc: Global, values: &[&Value]) -> Result<Texts, Memory>
    ensures { IfOk result (λ ts. ts ≡ map text_of_datum (behind values.now)) }
{
    let mut texts = Texts::new(alloc);
    for value in values {
        texts.push(text_of(alloc, value)?)?;
    }
    Ok(texts)
}

/// The tags of a resource that stands in this declaration.
pub fn tags_within(
    alloc: Global,
    book: &Book,
    container: Option<u32>,
    kind: &Text,
    title: &Text,
    given: &Texts,
) -> Result<Tags, Memory>
    ensures { IfOk result (λ ts. ts ≡ tags kind.now title.now given.now (spec.tags_in container book.now)) }
{
    match container {
        Some(number) if number < book.count() => {
            tags_of(
                alloc,
                kind,
                title,
                given,
                &book.row(number).declared.item.tags,
            )
        }
        _ => tags_of(alloc, kind, title, given, &Tags::new(alloc)),
    }
}
