//! Reading a bundle from its bytes.
ghost use Rattle.std.specs.Prelude.{◌≡◌, ◌≤◌, length, IfOk, IsTrue};
ghost use Rattle.serde_json.specs.View.{view};
ghost use Rattle.site_bundle.specs.declared.limits.TheConstants.{MOST_REQUESTS};
ghost use Rattle.site_bundle.specs.Documents.{json_of};
ghost use Rattle.site_bundle.specs.Refusals.{Reads, ReadsAs};
ghost use Rattle.res_core.specs.AskedFacts.{give_facts};
ghost use Rattle.site_bundle.specs.Bundles.{is_bundle, site_in, members_of, bundle_in, bundle_of, site_said, list_or};
ghost use Rattle.site_bundle.specs.Bundles.{request_list};

use crate::bundle::Bundle;
use crate::bundle_stop::BundleStop;
use crate::document::{parse, read_document};
use crate::files::read_files;
use crate::kept_files::KeptFiles;
use crate::machines::read_machine;
use crate::nodes::read_nodes;
use crate::refusing::bad_shape;
use crate::requests::{listed_in, read_requests};
use crate::site::{Site, site_in_turn, site_with};
use res_core::Requests;
use serde_json::Value;
use std::alloc::Global;
use std::thread::Threads;

/// The bundle that these bytes say, or the first thing that is wrong with them. Its manifests are parsed side by side
/// where threads can be had.
#[tactic(auto, unfolding(crate::specs::Bundles::bundle_of))]
pub fn read_bundle<R: Threads>(rt: &R, alloc: Global, bytes: &[u8]) -> Result<Bundle, BundleStop>
    ensures bundle { Reads result (bundle_of bytes.now) }
    ensures facts { IfOk result (λ b. IsTrue (give_facts b.requests)) }
    ensures few { IfOk result (λ b. length b.requests ≤ MOST_REQUESTS) }
{
    let document = read_document(alloc, bytes)?;
    bundle_in(rt, alloc, &document)
}

fn bundle_in<R: Threads>(rt: &R, alloc: Global, document: &Value) -> Result<Bundle, BundleStop>
    ensures bundle { Reads result (bundle_in (view document.now)) }
    ensures facts { IfOk result (λ b. IsTrue (give_facts b.requests)) }
    ensures few { IfOk result (λ b. length b.requests ≤ MOST_REQUESTS) }
{
    if is_bundle(document) {
        members_of(rt, alloc, document)
    } else {
        Err(bad_shape(alloc, "bundle"))
    }
}

/// Whether the document is an object whose `bundle` is the integer 1.
fn is_bundle(document: &Value) -> bool
    ensures { result ≡ is_bundle (view document.now) }
{
    match document.get("bundle").and_then(Value::as_u64) {
        Some(version) => version == 1,
        None => false,
    }
}

#[tactic(auto, unfolding(crate::specs::Bundles::members_of))]
fn members_of<R: Threads>(rt: &R, alloc: Global, document: &Value) -> Result<Bundle, BundleStop>
    ensures bundle { Reads result (members_of (view document.now)) }
    ensures facts { IfOk result (λ b. IsTrue (give_facts b.requests)) }
    ensures few { IfOk result (λ b. length b.requests ≤ MOST_REQUESTS) }
{
    let site = site_in(rt, alloc, document)?;
    let requests = read_requests(alloc, document)?;
    let machine = read_machine(alloc, document)?;
    Ok(Bundle {
        site,
        requests,
        machine,
    })
}

#[tactic(auto, unfolding(crate::specs::Bundles::site_in))]
fn site_in<R: Threads>(rt: &R, alloc: Global, document: &Value) -> Result<Site, BundleStop>
    ensures { Reads result (site_in (view document.now)) }
{
    let KeptFiles { manifests, data } = read_files(alloc, document)?;
    let nodes = read_nodes(alloc, document)?;
    let site = site_with(rt, alloc, manifests, data, nodes)?;
    Ok(site)
}

#[tactic(auto, unfolding(crate::specs::Bundles::site_in))]
fn site_in_one_thread(alloc: Global, document: &Value) -> Result<Site, BundleStop>
    ensures { Reads result (site_in (view document.now)) }
{
    let KeptFiles { manifests, data } = read_files(alloc, document)?;
    let nodes = read_nodes(alloc, document)?;
    let site = site_in_turn(alloc, manifests, data, nodes)?;
    Ok(site)
}

/// The site that these bytes say without anything that is asked of it, or the first thing that is wrong with them: a
/// JSON object with `files` and, where there are any, `nodes`, as in a bundle. Its other members do not count. Its
/// manifests are parsed one after another.
#[tactic(auto, unfolding(crate::specs::Bundles::site_said))]
pub fn read_site_text(alloc: Global, bytes: &[u8]) -> Result<Site, BundleStop>
    ensures { Reads result (site_said bytes.now) }
{
    let document = read_document(alloc, bytes)?;
    site_in_one_thread(alloc, &document)
}

/// The requests that these bytes say, or the first thing that is wrong with them: a JSON list as `requests` of a bundle
/// is one.
#[tactic(auto, unfolding(crate::specs::Bundles::request_list))]
pub fn read_request_list(alloc: Global, bytes: &[u8]) -> Result<Requests, BundleStop>
    ensures requests { Reads result (request_list bytes.now) }
    ensures facts { IfOk result (λ rs. IsTrue (give_facts rs)) }
    ensures few { IfOk result (λ rs. length rs ≤ MOST_REQUESTS) }
{
    let list = parse_list(alloc, bytes)?;
    listed_in(alloc, &list)
}

/// The JSON that the bytes are; what is none is no list of requests.
fn parse_list(alloc: Global, bytes: &[u8]) -> Result<Value, BundleStop>
    ensures { ReadsAs view result (list_or (json_of bytes.now)) }
{
    match parse(alloc, bytes) {
        Ok(json) => Ok(json),
        Err(BundleStop::NotJson) => Err(bad_shape(alloc, "requests")),
        Err(_) => Err(BundleStop::Memory),
    }
}
