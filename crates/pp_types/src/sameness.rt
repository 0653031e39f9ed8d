//! Whether two data types count as the same one.
ghost use Rattle.std.specs.Prelude.{◌≡◌, option_map};
ghost use Rattle.std.specs.Cmp.Lexicographic.{pointwise};
ghost use Rattle.std.specs.Str.{bytes_eq};
ghost use Rattle.pp_types.specs.Forms.{list_of};
ghost use Rattle.pp_types.specs.Layers.{choice_forms, seen_form, layer_form};
ghost use Rattle.pp_types.specs.Rules.{same, same_title, is_any};

use crate::choices::{choice_at, choice_count};
use crate::layer::{Choices, Layer, layer_of};
use crate::seen::Seen;
use pp_values::{Text, Texts};

pub fn is_any(seen: Seen<'_>) -> bool
    ensures { result ≡ is_any (seen_form seen.entry) }
{
    matches!(layer_of(seen), Layer::Any)
}

/// Whether both count as the same type, with all that was left out filled in.
#[cycle(same)]
pub fn same(a: Seen<'_>, b: Seen<'_>) -> bool
    ensures { result ≡ same (seen_form a.entry) (seen_form b.entry) }
{
    let other = layer_of(b);
    match layer_of(a) {
        Layer::Any => matches!(other, Layer::Any),
        Layer::Undef => matches!(other, Layer::Undef),
        Layer::Default => matches!(other, Layer::Default),
        Layer::Boolean => matches!(other, Layer::Boolean),
        Layer::Integer(range) => match other {
            Layer::Integer(other) => range.is(other),
            _ => false,
        },
        Layer::String(range) => match other {
            Layer::String(other) => range.is(other),
            _ => false,
        },
        Layer::Enum(texts) => match other {
            Layer::Enum(other) => same_texts(texts, other),
            _ => false,
        },
        Layer::Data => matches!(other, Layer::Data),
        Layer::Array(of, count) => match other {
            Layer::Array(other, range) => same(of, other) && count.is(range),
            _ => false,
        },
        Layer::Hash(key, value, count) => match other {
            Layer::Hash(other, of, range) => same(key, other) && same(value, of) && count.is(range),
            _ => false,
        },
        Layer::Variant(choices) => match other {
            Layer::Variant(other) => same_choices(choices, other),
            _ => false,
        },
        Layer::NotUndef(inner) => match other {
            Layer::NotUndef(other) => same(inner, other),
            _ => false,
        },
        Layer::Tuple(types) => match other {
            Layer::Tuple(other) => same_choices(Choices::Given(types), Choices::Given(other)),
            _ => false,
        },
        Layer::KindOf(inner) => match other {
            Layer::KindOf(other) => same(inner, other),
            _ => false,
        },
        Layer::CatalogEntry => matches!(other, Layer::CatalogEntry),
        Layer::Class(name) => match other {
            Layer::Class(other) => same_title(name, other),
            _ => false,
        },
        Layer::ResourceKind => matches!(other, Layer::ResourceKind),
        Layer::Resource(kind, title) => match other {
            Layer::Resource(other, name) => kind == other && same_title(title, name),
            _ => false,
        },
    }
}

#[cycle(same)]
fn same_choices(a: Choices<'_>, b: Choices<'_>) -> bool
    ensures { result ≡ pointwise same (list_of (choice_forms a.entry)) (list_of (choice_forms b.entry)) }
{
    let count = choice_count(a);
    if choice_count(b) != count {
        return false;
    }
    for place in 0..count {
        if !same(choice_at(a, place), choice_at(b, place)) {
            return false;
        }
    }
    true
}

fn same_texts(a: &Texts, b: &Texts) -> bool
    ensures { result ≡ pointwise bytes_eq a.now b.now }
{
    a.as_slice() == b.as_slice()
}

fn same_title(a: Option<&Text>, b: Option<&Text>) -> bool
    ensures { result ≡ same_title (option_map (λ t. t.now) a.entry) (option_map (λ t. t.now) b.entry) }
{
    match (a, b) {
        (None, None) => true,
        (Some(a), Some(b)) => a == b,
        _ => false,
    }
}
