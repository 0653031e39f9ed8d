//! The requests of a bundle.
ghost use Rattle.std.specs.Prelude.{◌≡◌, ◌≤◌, codes, [], length, option_map, IfOk, IsTrue};
ghost use Rattle.serde_json.specs.Find.{get};
ghost use Rattle.serde_json.specs.View.{view, items_view};
ghost use Rattle.res_core.specs.RequestViews.{asked, wanted};
ghost use Rattle.pp_values.specs.Views.{view as value_view};
ghost use Rattle.site_bundle.specs.Refusals.{Reads, ReadsAs};
ghost use Rattle.site_bundle.specs.RequestsOf.{name_in, count_in, facts_asked, seen_asked, name_asked, wanted_in};
ghost use Rattle.site_bundle.specs.RequestsOf.{asked_in, asked_from, asked_among, all_asked_in, requests_of};
ghost use Rattle.res_core.specs.AskedFacts.{give_facts};

use crate::bundle_stop::BundleStop;
use crate::limits::MOST_REQUESTS;
use crate::refusing::{bad_request, bad_request_member, bad_shape, too_large};
use crate::sent_facts::given_facts;
use pp_values::{Text, Value as FactValue};
use res_core::{CompileRequest, Request, Requests};
use serde_json::Value;
use std::alloc::Global;
use word_rules::is_node_name;

/// What a bundle asks for.
pub fn read_requests(alloc: Global, bundle: &Value) -> Result<Requests, BundleStop>
    ensures requests { Reads result (requests_of (view bundle.now)) }
    ensures facts { IfOk result (λ rs. IsTrue (give_facts rs)) }
    ensures few { IfOk result (λ rs. length rs ≤ MOST_REQUESTS) }
{
    match bundle.get("requests") {
        Some(requests) => listed_in(alloc, requests),
        None => Ok(Requests::new(alloc)),
    }
}

/// What a list of requests asks for.
pub fn listed_in(alloc: Global, requests: &Value) -> Result<Requests, BundleStop>
    ensures requests { Reads result (all_asked_in (view requests.now)) }
    ensures facts { IfOk result (λ rs. IsTrue (give_facts rs)) }
    ensures few { IfOk result (λ rs. length rs ≤ MOST_REQUESTS) }
{
    all_asked_in(alloc, requests)
}

fn all_asked_in(alloc: Global, requests: &Value) -> Result<Requests, BundleStop>
    ensures { Reads result (all_asked_in (view requests.now)) }
{
    match requests.as_array() {
        Some(items) => asked_among(alloc, items),
        None => Err(bad_shape(alloc, "requests")),
    }
}

fn asked_among(alloc: Global, items: &[Value]) -> Result<Requests, BundleStop>
    ensures { Reads result (asked_among (items_view items.now)) }
{
    if items.len() <= MOST_REQUESTS {
        asked_from(alloc, items)
    } else {
        Err(too_large(alloc, "requests"))
    }
}

fn asked_from(alloc: Global, items: &[Value]) -> Result<Requests, BundleStop>
    ensures { Reads result (asked_from [] (items_view items.now)) }
{
    let mut found = Requests::new(alloc);
    let mut left = items;
    while let [item, after @ ..] = left {
        let request = asked_in(alloc, found.len(), item)?;
        found.push(request)?;
        left = after;
    }
    Ok(found)
}

fn asked_in(alloc: Global, index: usize, request: &Value) -> Result<Request, BundleStop>
    ensures { ReadsAs asked result (asked_in index (view request.now)) }
{
    match (request.get("node"), request.get("deactivate")) {
        (Some(node), None) => {
            let wanted = wanted_in(alloc, index, request, node)?;
            Ok(Request::Compile(wanted))
        }
        (None, Some(name)) => {
            let node = name_asked(alloc, index, "deactivate", name)?;
            Ok(Request::Deactivate(node))
        }
        _ => Err(bad_request(alloc, index)),
    }
}

/// A request for a catalog, whose members count by name in byte order.
fn wanted_in(
    alloc: Global,
    index: usize,
    request: &Value,
    node: &Value,
) -> Result<CompileRequest, BundleStop>
    ensures { ReadsAs wanted result (wanted_in index (view request.now) (view node.now)) }
{
    let facts = facts_asked(alloc, index, request)?;
    let node = name_asked(alloc, index, "node", node)?;
    let seen = seen_asked(alloc, index, request)?;
    Ok(CompileRequest { node, facts, seen })
}

fn facts_asked(
    alloc: Global,
    index: usize,
    request: &Value,
) -> Result<Option<FactValue>, BundleStop>
    ensures { ReadsAs (option_map value_view) result (facts_asked index (get (codes "facts") (view request.now))) }
{
    let Some(facts) = request.get("facts") else {
        return Ok(None);
    };
    match given_facts(alloc, facts)? {
        Some(facts) => Ok(Some(facts)),
        None => Err(bad_request_member(alloc, index, "facts")),
    }
}

fn name_asked(alloc: Global, index: usize, key: &str, name: &Value) -> Result<Text, BundleStop>
    ensures { Reads result (name_asked index key.now (view name.now)) }
{
    match name_in(name) {
        Some(name) => Ok(Text::from_str(alloc, name)?),
        None => Err(bad_request_member(alloc, index, key)),
    }
}

/// A text that is the name of a node.
fn name_in(name: &Value) -> Option<&str>
    ensures { option_map (λ s. s.now) result ≡ name_in (view name.now) }
{
    let text = name.as_str()?;
    if is_node_name(text) { Some(text) } else { None }
}

fn seen_asked(alloc: Global, index: usize, request: &Value) -> Result<u32, BundleStop>
    ensures { Reads result (seen_asked index (get (codes "seen") (view request.now))) }
{
    let Some(seen) = request.get("seen") else {
        return Ok(0);
    };
    match count_in(seen) {
        Some(count) => Ok(count),
        None => Err(bad_request_member(alloc, index, "seen")),
    }
}

/// An integer of 32 bits without a sign.
fn count_in(count: &Value) -> Option<u32>
    ensures { result ≡ count_in (view count.now) }
{
    match count.as_u64() {
        Some(count) if count < 4_294_967_296 => Some(count as u32),
        _ => None,
    }
}
