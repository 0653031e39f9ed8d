//! Whether a data type includes another.
ghost use Rattle.std.specs.Prelude.{◌≡◌, ◌||◌, ◌&&◌, length, option_map, pos};
ghost use Rattle.std.specs.Cmp.Lexicographic.{pointwise};
ghost use Rattle.std.specs.List.{list_all, list_any};
ghost use Rattle.pp_values.specs.PTypes.{sort};
ghost use Rattle.pp_types.specs.Forms as f;
ghost use Rattle.pp_types.specs.Forms.{list_of, data_types};
ghost use Rattle.pp_types.specs.Includes.{includes, type_includes};
ghost use Rattle.pp_types.specs.Layers.{choice_forms, seen_form, layer_form, part_form};
ghost use Rattle.pp_types.specs.Ranges.{any_count, is_in_range, is_within};
ghost use Rattle.pp_types.specs.Rules.{same, is_any, by_wide, by_narrow, covers, data_covers, entry_covers, title_covers};

use crate::choices::{choice_at, choice_count};
use crate::data::DataPart;
use crate::layer::{Choices, Layer, layer_of};
use crate::lengths::{all_have_length, are_among};
use crate::range::Range;
use crate::sameness::{is_any, same};
use crate::seen::Seen;
use crate::undef::accepts_undef;
use pp_values::{PType, Text};

/// Whether the first data type includes the second.
pub fn includes(wide: &PType, narrow: &PType) -> bool
    ensures { result ≡ type_includes (sort wide.now) (sort narrow.now) }
{
    includes_seen(Seen::Given(wide), Seen::Given(narrow))
}

#[cycle(includes)]
pub fn includes_seen(wide: Seen<'_>, narrow: Seen<'_>) -> bool
    ensures { result ≡ includes (seen_form wide.entry) (seen_form narrow.entry) }
{
    if is_first_case(wide, narrow) {
        true
    } else {
        by_narrow(wide, narrow)
    }
}

fn is_first_case(wide: Seen<'_>, narrow: Seen<'_>) -> bool
    ensures { result ≡ (same (seen_form wide.entry) (seen_form narrow.entry) || is_any (seen_form wide.entry)) }
{
    same(wide, narrow) || is_any(wide)
}

/// Past the first case, by the second type where that is a `Variant` or a `NotUndef`.
#[cycle(includes)]
fn by_narrow(wide: Seen<'_>, narrow: Seen<'_>) -> bool
    ensures { result ≡ by_narrow includes (seen_form wide.entry) (seen_form narrow.entry) }
{
    match layer_of(narrow) {
        Layer::Variant(choices) => includes_each(wide, choices),
        Layer::NotUndef(inner) => includes_seen(Seen::OrUndef(&wide), inner),
        Layer::Data => includes_data(wide),
        _ => by_wide(wide, narrow),
    }
}

/// And then by the first type where that is one.
#[cycle(includes)]
fn by_wide(wide: Seen<'_>, narrow: Seen<'_>) -> bool
    ensures { result ≡ by_wide includes (seen_form wide.entry) (seen_form narrow.entry) }
{
    let layer = layer_of(wide);
    match layer {
        Layer::Variant(choices) => some_includes(choices, narrow),
        Layer::NotUndef(inner) => includes_seen(inner, narrow) && !accepts_undef(narrow),
        Layer::Data => data_covers(narrow),
        _ => covers(layer, layer_of(narrow)),
    }
}

#[cycle(includes)]
fn includes_each(wide: Seen<'_>, choices: Choices<'_>) -> bool
    ensures { result ≡ list_all (includes (seen_form wide.entry)) (list_of (choice_forms choices.entry)) }
{
    for place in 0..choice_count(choices) {
        if !includes_seen(wide, choice_at(choices, place)) {
            return false;
        }
    }
    true
}

#[cycle(includes)]
fn some_includes(choices: Choices<'_>, narrow: Seen<'_>) -> bool
    ensures { result
        ≡ list_any (λ t. includes t (seen_form narrow.entry)) (list_of (choice_forms choices.entry)) }
{
    for place in 0..choice_count(choices) {
        if includes_seen(choice_at(choices, place), narrow) {
            return true;
        }
    }
    false
}

/// Both are of one kind.
#[cycle(includes)]
fn covers(wide: Layer<'_>, narrow: Layer<'_>) -> bool
    ensures { result ≡ covers includes (layer_form wide.entry) (layer_form narrow.entry) }
{
    match wide {
        Layer::Undef => matches!(narrow, Layer::Undef),
        Layer::Default => matches!(narrow, Layer::Default),
        Layer::Boolean => matches!(narrow, Layer::Boolean),
        Layer::Integer(range) => match narrow {
            Layer::Integer(other) => range.covers(other),
            _ => false,
        },
        Layer::String(range) => match narrow {
            Layer::String(other) => range.covers(other),
            Layer::Enum(texts) => all_have_length(range, texts.as_slice()),
            _ => false,
        },
        Layer::Enum(texts) => match narrow {
            Layer::Enum(others) => are_among(texts.as_slice(), others.as_slice()),
            _ => false,
        },
        Layer::Array(of, count) => array_covers(of, count, narrow),
        Layer::Hash(key, value, count) => match narrow {
            Layer::Hash(other, of, range) => {
                count.covers(range) && includes_seen(key, other) && includes_seen(value, of)
            }
            _ => false,
        },
        Layer::Tuple(types) => match narrow {
            Layer::Tuple(others) => in_places(Choices::Given(types), Choices::Given(others)),
            _ => false,
        },
        Layer::KindOf(inner) => match narrow {
            Layer::KindOf(other) => includes_seen(inner, other),
            _ => false,
        },
        _ => entry_covers(wide, narrow),
    }
}

#[cycle(includes)]
fn array_covers(of: Seen<'_>, count: Range, narrow: Layer<'_>) -> bool
    ensures { result ≡ covers includes (f.array (seen_form of.entry) count) (layer_form narrow.entry) }
{
    match narrow {
        Layer::Array(other, range) => count.covers(range) && includes_seen(of, other),
        Layer::Tuple(types) => tuple_is_within(of, count, Choices::Given(types)),
        _ => false,
    }
}

/// As many types as the counts allow, each included in the type of members.
#[cycle(includes)]
fn tuple_is_within(of: Seen<'_>, count: Range, types: Choices<'_>) -> bool
    ensures { result
        ≡ (is_in_range count (pos (length (list_of (choice_forms types.entry))))
        && list_all (includes (seen_form of.entry)) (list_of (choice_forms types.entry))) }
{
    count.has_count(choice_count(types)) && includes_each(of, types)
}

/// As many types on both sides, each included in its place.
#[cycle(includes)]
fn in_places(wide: Choices<'_>, narrow: Choices<'_>) -> bool
    ensures { result
        ≡ pointwise includes (list_of (choice_forms wide.entry)) (list_of (choice_forms narrow.entry)) }
{
    let count = choice_count(wide);
    if choice_count(narrow) != count {
        return false;
    }
    for place in 0..count {
        if !includes_seen(choice_at(wide, place), choice_at(narrow, place)) {
            return false;
        }
    }
    true
}

/// The types that accept no value: entries of the catalog, which are classes and the other kinds of resource.
fn entry_covers(wide: Layer<'_>, narrow: Layer<'_>) -> bool
    ensures { result ≡ entry_covers (layer_form wide.entry) (layer_form narrow.entry) }
{
    match wide {
        Layer::CatalogEntry => matches!(
            narrow,
            Layer::CatalogEntry | Layer::Class(_) | Layer::ResourceKind | Layer::Resource(_, _)
        ),
        Layer::Class(name) => match narrow {
            Layer::Class(other) => title_covers(name, other),
            _ => false,
        },
        Layer::ResourceKind => matches!(narrow, Layer::ResourceKind | Layer::Resource(_, _)),
        Layer::Resource(kind, title) => match narrow {
            Layer::Resource(other, name) => kind == other && title_covers(title, name),
            _ => false,
        },
        _ => false,
    }
}

/// A title left out stands for each title.
fn title_covers(title: Option<&Text>, other: Option<&Text>) -> bool
    ensures { result
        ≡ title_covers (option_map (λ t. t.now) title.entry) (option_map (λ t. t.now) other.entry) }
{
    match (title, other) {
        (None, _) => true,
        (Some(title), Some(other)) => title == other,
        _ => false,
    }
}

/// Whether each of the types as which `Data` counts is included, where `Data` itself is not the same.
#[cycle(includes)]
fn includes_data(wide: Seen<'_>) -> bool
    ensures { result ≡ list_all (by_wide includes (seen_form wide.entry)) data_types }
{
    match layer_of(wide) {
        Layer::Data => true,
        Layer::Variant(choices) => {
            some_includes(choices, Seen::Undef)
                && some_includes(choices, Seen::Boolean)
                && some_includes(choices, Seen::Integer)
                && some_includes(choices, Seen::String)
                && some_includes_part(choices, DataPart::Array)
                && some_includes_part(choices, DataPart::Hash)
        }
        _ => false,
    }
}

#[cycle(includes)]
fn some_includes_part(choices: Choices<'_>, part: DataPart) -> bool
    ensures { result ≡ list_any (λ t. includes t (part_form part)) (list_of (choice_forms choices.entry)) }
{
    for place in 0..choice_count(choices) {
        if includes_part(choice_at(choices, place), part) {
            return true;
        }
    }
    false
}

#[cycle(includes)]
fn includes_part(wide: Seen<'_>, part: DataPart) -> bool
    ensures { result ≡ includes (seen_form wide.entry) (part_form part) }
{
    match layer_of(wide) {
        Layer::Any => true,
        Layer::Data => true,
        Layer::Variant(choices) => some_includes_part(choices, part),
        Layer::NotUndef(inner) => includes_part(inner, part),
        Layer::Array(of, count) => match part {
            DataPart::Array => has_arrays_of_data(of, count),
            DataPart::Hash => false,
        },
        Layer::Hash(key, value, count) => match part {
            DataPart::Array => false,
            DataPart::Hash => has_hashes_of_data(key, value, count),
        },
        _ => false,
    }
}

#[cycle(includes)]
fn has_arrays_of_data(of: Seen<'_>, count: Range) -> bool
    ensures { result ≡ (is_within count any_count && includes (seen_form of.entry) f.data_) }
{
    count.covers(Range::COUNTS) && includes_seen(of, Seen::Data)
}

#[cycle(includes)]
fn has_hashes_of_data(key: Seen<'_>, value: Seen<'_>, count: Range) -> bool
    ensures { result
        ≡ (is_within count any_count
        && (includes (seen_form key.entry) (f.string any_count) && includes (seen_form value.entry) f.data_)) }
{
    count.covers(Range::COUNTS)
        && includes_seen(key, Seen::String)
        && includes_seen(value, Seen::Data)
}

/// Whether some type as which `Data` counts is of this kind and includes the type.
#[cycle(includes)]
fn data_covers(narrow: Seen<'_>) -> bool
    ensures { result ≡ data_covers includes (seen_form narrow.entry) }
{
    match layer_of(narrow) {
        Layer::Undef => true,
        Layer::Boolean => true,
        Layer::Integer(range) => Range::INTEGERS.covers(range),
        Layer::String(range) => Range::COUNTS.covers(range),
        Layer::Enum(texts) => all_have_length(Range::COUNTS, texts.as_slice()),
        Layer::Array(of, count) => Range::COUNTS.covers(count) && includes_seen(Seen::Data, of),
        Layer::Hash(key, value, count) => {
            Range::COUNTS.covers(count)
                && includes_seen(Seen::String, key)
                && includes_seen(Seen::Data, value)
        }
        Layer::Tuple(types) => tuple_is_within(Seen::Data, Range::COUNTS, Choices::Given(types)),
        _ => false,
    }
}
