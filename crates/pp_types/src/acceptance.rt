//! Which values a data type accepts.
ghost use Rattle.std.specs.Prelude.{◌≡◌, ◌&&◌, length, pos};
ghost use Rattle.std.specs.Cmp.Lexicographic.{pointwise};
ghost use Rattle.std.specs.List.{list_all, list_any};
ghost use Rattle.pp_values.specs.PTypes.{sort};
ghost use Rattle.pp_values.specs.Views.{view, views, pair_views};
ghost use Rattle.pp_types.specs.Accepts.{accepts, type_accepts, accept_members, is_list, is_integer_within, is_text_of_length, is_text_among, is_list_of, is_hash_of, is_type_within};
ghost use Rattle.pp_types.specs.Forms.{list_of};
ghost use Rattle.pp_types.specs.Ranges.{is_in_range};
ghost use Rattle.pp_types.specs.Layers.{choice_forms, seen_form};

use crate::choices::{choice_at, choice_count};
use crate::data_values::is_data;
use crate::inclusion::includes_seen;
use crate::layer::{Choices, Layer, layer_of};
use crate::lengths::{has_length, is_among};
use crate::range::Range;
use crate::seen::Seen;
use pp_values::{PType, Pairs, Texts, Value, Values};

/// Whether the data type accepts the value.
pub fn accepts(kind: &PType, value: &Value) -> bool
    ensures { result ≡ type_accepts (sort kind.now) (view value.now) }
{
    accepts_seen(Seen::Given(kind), value)
}

#[cycle(accepts)]
fn accepts_seen(seen: Seen<'_>, value: &Value) -> bool
    ensures { result ≡ accepts (seen_form seen.entry) (view value.now) }
{
    match layer_of(seen) {
        Layer::Any => true,
        Layer::Undef => matches!(value, Value::Undef),
        Layer::Default => matches!(value, Value::Default),
        Layer::Boolean => matches!(value, Value::Flag(_)),
        Layer::Integer(range) => is_integer_within(range, value),
        Layer::String(range) => is_text_of_length(range, value),
        Layer::Enum(texts) => is_text_among(texts, value),
        Layer::Data => is_data(value),
        Layer::Array(of, count) => is_list_of(of, count, value),
        Layer::Hash(key, of, count) => is_hash_of(key, of, count, value),
        Layer::Variant(choices) => some_accepts(choices, value),
        Layer::NotUndef(inner) => !matches!(value, Value::Undef) && accepts_seen(inner, value),
        Layer::Tuple(types) => accepts_list(Choices::Given(types), value),
        Layer::KindOf(inner) => is_type_within(inner, value),
        _ => false,
    }
}

fn is_integer_within(range: Range, value: &Value) -> bool
    ensures { result ≡ is_integer_within range (view value.now) }
{
    match value {
        Value::Int(number) => range.has(*number),
        _ => false,
    }
}

fn is_text_of_length(range: Range, value: &Value) -> bool
    ensures { result ≡ is_text_of_length range (view value.now) }
{
    match value {
        Value::Text(text) => has_length(range, text),
        _ => false,
    }
}

fn is_text_among(texts: &Texts, value: &Value) -> bool
    ensures { result ≡ is_text_among texts.now (view value.now) }
{
    match value {
        Value::Text(text) => is_among(text, texts.as_slice()),
        _ => false,
    }
}

/// Whether the value is a type that this one includes. A reference counts as the type of its kind and title.
fn is_type_within(wide: Seen<'_>, value: &Value) -> bool
    ensures { result ≡ is_type_within (seen_form wide.entry) (view value.now) }
{
    match value {
        Value::Kind(narrow) => includes_seen(wide, Seen::Given(narrow.as_type())),
        Value::Ref(reference) => includes_seen(wide, Seen::Reference(reference.get())),
        _ => false,
    }
}

#[cycle(accepts)]
fn is_list_of(of: Seen<'_>, count: Range, value: &Value) -> bool
    ensures { result ≡ is_list_of (accepts (seen_form of.entry)) count (view value.now) }
{
    match value {
        Value::List(items) => accepts_items(of, count, items),
        _ => false,
    }
}

#[cycle(accepts)]
fn accepts_items(of: Seen<'_>, count: Range, items: &Values) -> bool
    ensures { result
        ≡ (is_in_range count (pos (length items.now)) && list_all (accepts (seen_form of.entry)) items.now) }
{
    count.has_count(items.len()) && accepts_all(of, items.as_slice())
}

#[cycle(accepts)]
fn accepts_all(of: Seen<'_>, items: &[Value]) -> bool
    ensures { result ≡ list_all (accepts (seen_form of.entry)) (views items.now) }
{
    for item in items {
        if !accepts_seen(of, item) {
            return false;
        }
    }
    true
}

#[cycle(accepts)]
fn is_hash_of(key: Seen<'_>, of: Seen<'_>, count: Range, value: &Value) -> bool
    ensures { result
        ≡ is_hash_of (λ p. accepts (seen_form key.entry) p.0 && accepts (seen_form of.entry) p.1) count (view value.now) }
{
    match value {
        Value::Hash(pairs) => accepts_entries(key, of, count, pairs),
        _ => false,
    }
}

#[cycle(accepts)]
fn accepts_entries(key: Seen<'_>, of: Seen<'_>, count: Range, pairs: &Pairs) -> bool
    ensures { result
        ≡ (is_in_range count (pos (length pairs.now))
        && list_all (λ p. accepts (seen_form key.entry) p.0 && accepts (seen_form of.entry) p.1) pairs.now) }
{
    count.has_count(pairs.len()) && accepts_pairs(key, of, pairs.as_slice())
}

#[cycle(accepts)]
fn accepts_pairs(key: Seen<'_>, of: Seen<'_>, pairs: &[(Value, Value)]) -> bool
    ensures { result
        ≡ list_all (λ p. accepts (seen_form key.entry) p.0 && accepts (seen_form of.entry) p.1) (pair_views pairs.now) }
{
    for (name, item) in pairs {
        if !accepts_seen(key, name) || !accepts_seen(of, item) {
            return false;
        }
    }
    true
}

#[cycle(accepts)]
fn some_accepts(choices: Choices<'_>, value: &Value) -> bool
    ensures { result ≡ list_any (λ t. accepts t (view value.now)) (list_of (choice_forms choices.entry)) }
{
    for place in 0..choice_count(choices) {
        if accepts_seen(choice_at(choices, place), value) {
            return true;
        }
    }
    false
}

/// Whether the value is a list of as many members as there are types, each accepted in its place.
#[cycle(accepts)]
fn accepts_list(types: Choices<'_>, value: &Value) -> bool
    ensures { result ≡ is_list (accept_members (choice_forms types.entry)) (view value.now) }
{
    match value {
        Value::List(items) => accepts_members(types, items.as_slice()),
        _ => false,
    }
}

#[cycle(accepts)]
fn accepts_members(types: Choices<'_>, items: &[Value]) -> bool
    ensures { result ≡ pointwise accepts (list_of (choice_forms types.entry)) (views items.now) }
{
    let count = choice_count(types);
    if items.len() != count {
        return false;
    }
    for place in 0..count {
        if !accepts_seen(choice_at(types, place), &items[place]) {
            return false;
        }
    }
    true
}
