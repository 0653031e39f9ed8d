//! Indexes of resources, and edges between them.
ghost use Rattle.std.specs.Prelude.{◌≡◌, codes, IfOk};
ghost use Rattle.serde_json.specs.View.{items_view, view};
ghost use Rattle.catalog_reading.specs.CatalogParts.{each_said, list_said, said_at, index_said, edge_in, edge_said};

use pp_values::Memory;
use res_core::{Edge, EdgeList, Indexes};
use serde_json::Value as Json;
use std::alloc::Global;

/// The resources that contain one.
pub(crate) fn inside_at(alloc: Global, json: &Json) -> Result<Option<Indexes>, Memory>
    ensures { IfOk result (λ o. o ≡ said_at (list_said index_said) (codes "in") (view json.now)) }
{
    match json.get("in").and_then(Json::as_array) {
        Some(items) => indexes_said(alloc, items.as_slice()),
        None => Ok(None),
    }
}

fn indexes_said(alloc: Global, items: &[Json]) -> Result<Option<Indexes>, Memory>
    ensures { IfOk result (λ o. o ≡ each_said index_said (items_view items.now)) }
{
    let mut indexes = Vec::new(alloc);
    let mut left = items;
    while let [item, after @ ..] = left {
        match index_said(item) {
            Some(index) => indexes.push(index)?,
            None => return Ok(None),
        }
        left = after;
    }
    Ok(Some(Indexes::from_vec(indexes)))
}

fn index_said(json: &Json) -> Option<u32>
    ensures { result ≡ index_said (view json.now) }
{
    match json.as_u64() {
        Some(index) => u32::try_from(index).ok(),
        None => None,
    }
}

pub(crate) fn edges_at(alloc: Global, json: &Json) -> Result<Option<EdgeList>, Memory>
    ensures { IfOk result (λ o. o ≡ said_at (list_said edge_said) (codes "edges") (view json.now)) }
{
    match json.get("edges").and_then(Json::as_array) {
        Some(items) => edges_said(alloc, items.as_slice()),
        None => Ok(None),
    }
}

fn edges_said(alloc: Global, items: &[Json]) -> Result<Option<EdgeList>, Memory>
    ensures { IfOk result (λ o. o ≡ each_said edge_said (items_view items.now)) }
{
    let mut edges = Vec::new(alloc);
    let mut left = items;
    while let [item, after @ ..] = left {
        match edge_said(item) {
            Some(edge) => edges.push(edge)?,
            None => return Ok(None),
        }
        left = after;
    }
    Ok(Some(EdgeList::from_vec(edges)))
}

fn edge_said(json: &Json) -> Option<Edge>
    ensures { result ≡ edge_said (view json.now) }
{
    match json.as_array() {
        Some(items) => edge_in(items.as_slice()),
        None => None,
    }
}

#[tactic(auto, using(crate::proofs::OtherLengths::too_few, crate::proofs::OtherLengths::too_many))]
fn edge_in(items: &[Json]) -> Option<Edge>
    ensures { result ≡ edge_in (items_view items.now) }
{
    let [from, to, signal] = items else {
        return None;
    };
    let from = index_said(from)?;
    let to = index_said(to)?;
    let signal = signal.as_bool()?;
    Some(Edge { from, to, signal })
}
