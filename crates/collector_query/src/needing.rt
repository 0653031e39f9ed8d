//! Which tag all that a query matches has.
ghost use Rattle.std.specs.Prelude.{◌≡◌, option_copied};
ghost use Rattle.pp_values.specs.Views.{view};
ghost use Rattle.res_core.specs.Criteria.{criteria_of};
ghost use Rattle.res_core.specs.QueryViews.{criterion, criteria};
ghost use Rattle.collector_query.specs.Needed as spec;

use pp_values::{Text, Value};
use res_core::Query;

/// A tag that whatever the query matches has, with ASCII letters folded; `None` where the query names none.
#[cycle(needing)]
pub fn needed_tag(query: &Query) -> Option<&Text>
    ensures { option_copied result ≡ spec.needed_tag (criterion query.now) }
{
    match query {
        Query::Tag(value) => text_in(value),
        Query::And(queries) => first_needed(queries.as_slice()),
        Query::All => None,
        Query::Title(_) => None,
        Query::Attribute(_, _) => None,
        Query::Not(_) => None,
        Query::Or(_) => None,
    }
}

#[cycle(needing)]
fn first_needed(queries: &[Query]) -> Option<&Text>
    ensures { option_copied result ≡ spec.first_needed (criteria_of (criteria queries.now)) }
{
    for query in queries {
        if let Some(tag) = needed_tag(query) {
            return Some(tag);
        }
    }
    None
}

fn text_in(value: &Value) -> Option<&Text>
    ensures { option_copied result ≡ spec.text_in (view value.now) }
{
    match value {
        Value::Text(text) => Some(text),
        _ => None,
    }
}
