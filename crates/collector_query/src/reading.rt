//! Whether a query asks for an attribute.
ghost use Rattle.std.specs.Prelude.{◌≡◌};
ghost use Rattle.res_core.specs.Criteria.{criteria_of};
ghost use Rattle.res_core.specs.QueryViews.{criterion, criteria};
ghost use Rattle.collector_query.specs.Reading as spec;

use res_core::Query;

/// Whether a query asks for an attribute. Where it doesn't, a resource matches or not whatever its attributes are.
#[cycle(reading)]
pub fn reads_attributes(query: &Query) -> bool
    ensures { result ≡ spec.reads_attributes (criterion query.now) }
{
    match query {
        Query::All => false,
        Query::Title(_) => false,
        Query::Tag(_) => false,
        Query::Attribute(_, _) => true,
        Query::Not(inner) => reads_attributes(inner.as_query()),
        Query::And(queries) => some_read(queries.as_slice()),
        Query::Or(queries) => some_read(queries.as_slice()),
    }
}

#[cycle(reading)]
fn some_read(queries: &[Query]) -> bool
    ensures { result ≡ spec.some_read (criteria_of (criteria queries.now)) }
{
    for query in queries {
        if reads_attributes(query) {
            return true;
        }
    }
    false
}
