//! What a catalog keeps of its parts.
ghost use Rattle.std.specs.Prelude.{◌≡◌, ◌++◌, not, map, codes, nat_lt, IfOk, IsTrue, OnOk};
ghost use Rattle.std.specs.BTreeSet.{insert_key};
ghost use Rattle.std.specs.List.{list_all};
ghost use Rattle.std.specs.Ordering.{nat_cmp};
ghost use Rattle.pp_values.specs.Rising.{has_text, is_rising, precedes, text_cmp};
ghost use Rattle.res_core.specs.Catalogs.{are_apart, are_containers, edge_cmp, has_form, is_before, is_between};
ghost use Rattle.res_core.specs.Catalogs.{is_ordered, reference_of};
ghost use Rattle.catalog_reading.specs.CatalogReading.{are_contained, is_whole, name_of};

use pp_values::{Memory, Text};
use res_core::{Edge, Held};
use std::alloc::Global;
use std::collections::BTreeSet;

/// Whether these are the resources and edges of a catalog.
#[tactic(auto, unfolding(crate::specs::CatalogReading::is_whole))]
pub(crate) fn is_whole(alloc: Global, resources: &[Held], edges: &[Edge]) -> Result<bool, Memory>
    requires { IsTrue (list_all has_form resources.now) }
    ensures { IfOk result (λ b. b ≡ is_whole resources.now edges.now) }
{
    let count = resources.len();
    if are_contained(count, resources) && are_between(count, edges) && are_ordered(edges) {
        are_apart(alloc, resources)
    } else {
        Ok(false)
    }
}

fn are_contained(count: usize, resources: &[Held]) -> bool
    ensures { result ≡ are_contained count resources.now }
{
    resources
        .iter()
        .all(|held| are_containers(count, held.inside.as_slice()))
}

fn are_containers(count: usize, indexes: &[u32]) -> bool
    ensures { result ≡ are_containers count indexes.now }
{
    are_below(count, indexes) && do_rise(indexes)
}

fn are_below(count: usize, indexes: &[u32]) -> bool
    ensures { result ≡ list_all (λ i. nat_lt i count) indexes.now }
{
    indexes.iter().all(|index| (*index as usize) < count)
}

fn do_rise(indexes: &[u32]) -> bool
    ensures { result ≡ is_ordered nat_cmp indexes.now }
{
    let mut left = indexes;
    while let [index, after @ ..] = left {
        if !is_below(*index, after) {
            return false;
        }
        left = after;
    }
    true
}

fn is_below(index: u32, after: &[u32]) -> bool
    ensures { result ≡ is_before nat_cmp index after.now }
{
    match after {
        [] => true,
        [next, ..] => index < *next,
    }
}

fn are_between(count: usize, edges: &[Edge]) -> bool
    ensures { result ≡ list_all (is_between count) edges.now }
{
    edges.iter().all(|edge| (edge.from as usize) < count && (edge.to as usize) < count)
}

/// By `from`, then by `to`.
fn are_ordered(edges: &[Edge]) -> bool
    ensures { result ≡ is_ordered edge_cmp edges.now }
{
    let mut left = edges;
    while let [edge, after @ ..] = left {
        if !is_before(edge, after) {
            return false;
        }
        left = after;
    }
    true
}

fn is_before(edge: &Edge, after: &[Edge]) -> bool
    ensures { result ≡ is_before edge_cmp edge.now after.now }
{
    match after {
        [] => true,
        [next, ..] => edge
            .from
            .cmp(&next.from)
            .then(edge.to.cmp(&next.to))
            .is_lt(),
    }
}

/// Whether no two of them have the same kind and title.
fn are_apart(alloc: Global, resources: &[Held]) -> Result<bool, Memory>
    requires { IsTrue (list_all has_form resources.now) }
    ensures { IfOk result (λ b. b ≡ are_apart (map reference_of resources.now)) }
{
    let mut names = BTreeSet::new(alloc);
    let mut left = resources;
    while let [held, after @ ..] = left {
        let name = name_of(alloc, held)?;
        if !put_new(&mut names, name)? {
            return Ok(false);
        }
        left = after;
    }
    Ok(true)
}

/// Puts the name among the others, and tells whether it was none of them.
fn put_new(names: &mut BTreeSet<Text>, name: Text) -> Result<bool, Memory>
    ensures new { IfOk result (λ b. b ≡ not (has_text names.old.keys name)) }
    ensures keys { OnOk result (names.new.keys ≡ insert_key text_cmp names.old.keys name) }
{
    Ok(names.insert(name)?)
}

fn name_of(alloc: Global, held: &Held) -> Result<Text, Memory>
    ensures { IfOk result (λ t. t ≡ name_of held.now) }
{
    let resource = held.item.as_resource();
    let mut name = String::from_str(alloc, resource.kind.as_str())?;
    name.push_str("[")?;
    name.push_str(resource.title.as_str())?;
    Ok(Text::new(name))
}

/// Whether they rise in byte order, so that none stands twice.
pub(crate) fn are_rising(texts: &[Text]) -> bool
    ensures { result ≡ is_rising texts.now }
{
    let mut left = texts;
    while let [text, after @ ..] = left {
        if !precedes(text, after) {
            return false;
        }
        left = after;
    }
    true
}

fn precedes(text: &Text, after: &[Text]) -> bool
    ensures { result ≡ precedes text.now after.now }
{
    match after {
        [] => true,
        [next, ..] => text.compare(next).is_lt(),
    }
}
