ghost use Rattle.std.specs.Prelude.{◌≡◌};
ghost use Rattle.std.specs.List.{list_any};
ghost use Rattle.pp_values.specs.Datum.{text as text_datum};
ghost use Rattle.pp_values.specs.Equal.{equal};
ghost use Rattle.pp_values.specs.Views.{view};
ghost use Rattle.res_core.specs.AttributeViews.{set_in};
ghost use Rattle.res_core.specs.Criteria.{criteria_of};
ghost use Rattle.res_core.specs.QueryViews.{criterion, criteria};
ghost use Rattle.collector_query.specs.Matches.{matches, match_all, match_some, is_tagged_by, or_undef, is_or_has as is_or_has_datum};

use pp_values::{Text, Value, equal};
use res_core::{Attributes, Query, Tags};

/// Whether a query matches a resource of this title, with these tags and attributes.
#[cycle(matching)]
pub fn matches(query: &Query, title: &Text, tags: &Tags, attributes: &Attributes) -> bool
    ensures { result ≡ matches (criterion query.now) title.now tags.now attributes.now }
{
    match query {
        Query::All => true,
        Query::Title(value) => is_text(value, title),
        Query::Tag(value) => is_tagged(tags, value),
        Query::Attribute(name, value) => has_setting(attributes, name, value),
        Query::Not(inner) => !matches(inner.as_query(), title, tags, attributes),
        Query::And(queries) => match_all(queries.as_slice(), title, tags, attributes),
        Query::Or(queries) => match_some(queries.as_slice(), title, tags, attributes),
    }
}

#[cycle(matching)]
fn match_all(queries: &[Query], title: &Text, tags: &Tags, attributes: &Attributes) -> bool
    ensures { result ≡ match_all (criteria_of (criteria queries.now)) title.now tags.now attributes.now }
{
    for query in queries {
        if !matches(query, title, tags, attributes) {
            return false;
        }
    }
    true
}

#[cycle(matching)]
fn match_some(queries: &[Query], title: &Text, tags: &Tags, attributes: &Attributes) -> bool
    ensures { result ≡ match_some (criteria_of (criteria queries.now)) title.now tags.now attributes.now }
{
    for query in queries {
        if matches(query, title, tags, attributes) {
            return true;
        }
    }
    false
}

/// Whether a value is the text, by the language's `==`.
fn is_text(value: &Value, text: &Text) -> bool
    ensures { result ≡ equal (view value.now) (text_datum text.now) }
{
    match value {
        Value::Text(other) => other.as_str().eq_ignore_ascii_case(text.as_str()),
        _ => false,
    }
}

fn is_tagged(tags: &Tags, value: &Value) -> bool
    ensures { result ≡ is_tagged_by tags.now (view value.now) }
{
    match value {
        Value::Text(text) => tags.has(text),
        _ => false,
    }
}

fn has_setting(attributes: &Attributes, name: &Text, value: &Value) -> bool
    ensures { result ≡ is_or_has_datum (or_undef (set_in attributes.now name.now)) (view value.now) }
{
    match attributes.get(name) {
        Some(setting) => is_or_has(setting, value),
        None => is_or_has(&Value::Undef, value),
    }
}

fn is_or_has(setting: &Value, value: &Value) -> bool
    ensures { result ≡ is_or_has_datum (view setting.now) (view value.now) }
{
    match setting {
        Value::List(members) => has_member(members.as_slice(), value),
        _ => equal(setting, value),
    }
}

fn has_member(members: &[Value], value: &Value) -> bool
    ensures { result ≡ list_any (λ m. equal (view m) (view value.now)) members.now }
{
    members.iter().any(|member| equal(member, value))
}
