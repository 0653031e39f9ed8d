//! Whether a resource stands inside itself, or comes before itself.
ghost use Rattle.std.specs.Prelude.{◌≡◌, ◌<◌, ◌^◌, ℕ, [], ◌++◌, length, map, IfOk, OnOk, MatchResult, option_and_then};
ghost use Rattle.std.specs.Prelude.{option_copied, slice_get};
ghost use Rattle.pp_values.specs.Answers.{Answers};
ghost use Rattle.res_book.specs.Rows.{reference_of as reference_meant};
ghost use Rattle.rel_graph.specs.CatalogPairs.{containment};
ghost use Rattle.rel_graph.specs.FirstCycles.{first_cycle, is_direct, cycle_in as cycle_meant};
ghost use Rattle.rel_graph.specs.Graphs.{containment_pair, edge_pair};
ghost use Rattle.rel_graph.specs.Pairs.{AllBelow};
ghost use Rattle.catalog_finish.specs.Containing.{rows_at as rows_at_meant, cycle_told as told_meant, order_checked};
ghost use Rattle.catalog_finish.specs.Layouts.{live_numbers};

use pp_values::{Fault, Memory, Refs, Stop, What};
use rel_graph::{Containers, Containment, Graph, GraphStop, OrderStop, build};
use res_book::{Book, Row};
use res_core::{EdgeList, Held, Indexes};
use std::alloc::Global;

/// Puts what contains the resource of this index behind the other pairs.
fn put_pairs(member: u32, containers: &[u32], pairs: &mut Vec<Containment>) -> Result<(), Memory>
    ensures { OnOk result (map containment_pair pairs.new.items
        ≡ map containment_pair pairs.old.items ++ map (λ c. (c, member)) containers.now) }
{
    for container in containers {
        let container = *container;
        pairs.push(Containment { container, member })?;
    }
    Ok(())
}

fn containers(alloc: Global, resources: &[Held]) -> Result<Containers, Memory>
    requires { length resources.now < 2 ^ 32 }
    ensures { IfOk result (λ l. map containment_pair l ≡ containment resources.now) }
{
    let mut pairs = Vec::new(alloc);
    for (index, held) in resources.iter().enumerate() {
        put_pairs(index as u32, held.inside.as_slice(), &mut pairs)?;
    }
    Ok(Containers::from_vec(pairs))
}

/// The numbers of the live declarations, in the order of the catalog.
fn numbers(alloc: Global, book: &Book) -> Result<Vec<u32>, Memory>
    ensures { IfOk result (λ v. v.items ≡ live_numbers book.now) }
{
    let mut numbers = Vec::new(alloc);
    for number in 0..book.count() {
        if book.live(number) {
            numbers.push(number)?;
        }
    }
    Ok(numbers)
}

fn row_of(book: &Book, number: u32) -> Option<&Row>
    ensures { option_copied result ≡ slice_get book.now number }
{
    if number < book.count() {
        return Some(book.row(number));
    }
    None
}

fn row_at<'a>(book: &'a Book, numbers: &[u32], index: u32) -> Option<&'a Row>
    ensures { option_copied result ≡ option_and_then (slice_get book.now) (slice_get numbers.now index) }
{
    match numbers.get(index as usize) {
        Some(number) => row_of(book, *number),
        None => None,
    }
}

fn rows_at<'a>(
    alloc: Global,
    book: &'a Book,
    numbers: &[u32],
    indexes: &[u32],
) -> Result<Vec<&'a Row>, Memory>
    ensures { IfOk result (λ v. map (λ r. r.now) v.items ≡ rows_at_meant book.now numbers.now indexes.now) }
{
    let mut rows = Vec::new(alloc);
    for index in indexes {
        if let Some(row) = row_at(book, numbers, *index) {
            rows.push(row)?;
        }
    }
    Ok(rows)
}

fn references_of(alloc: Global, rows: &[&Row]) -> Result<Refs, Memory>
    ensures { IfOk result (λ l. l ≡ map (λ x. reference_meant x.now.declared) rows.now) }
{
    let mut items = Vec::new(alloc);
    for row in rows {
        items.push(row.declared.reference(alloc)?)?;
    }
    Ok(Refs::from_vec(items))
}

/// The fault of a cycle of these declarations.
fn cycle_told(alloc: Global, rows: &[&Row]) -> Result<(), Stop>
    ensures { Answers result (told_meant (map (λ r. r.now) rows.now)) }
{
    match rows {
        [] => Ok(()),
        [first, ..] => {
            let at = first.declared.at.copy(alloc)?;
            let references = references_of(alloc, rows)?;
            Err(Stop::Fault(Fault::new(alloc, at, What::Cycle(references))?))
        }
    }
}

fn cycle_of(alloc: Global, book: &Book, cycle: &Indexes) -> Result<(), Stop>
    ensures { Answers result (told_meant (rows_at_meant book.now (live_numbers book.now) cycle.now)) }
{
    let numbers = numbers(alloc, book)?;
    let rows = rows_at(alloc, book, numbers.as_slice(), cycle.as_slice())?;
    cycle_told(alloc, rows.as_slice())
}

/// The cycle of what comes before what, where it has one.
fn cycle_before(alloc: Global, graph: &Graph) -> Result<Option<Indexes>, Memory>
    requires below { AllBelow graph.now.containers graph.now.count }
    requires edges_below { AllBelow graph.now.edges graph.now.count }
    ensures { IfOk result (λ o. o
        ≡ first_cycle (is_direct graph.now.containers graph.now.edges graph.now.count) graph.now.count) }
{
    if !graph.has_cycle() {
        return Ok(None);
    }
    match graph.order(alloc) {
        Ok(_order) => Ok(None),
        Err(OrderStop::Cycle(cycle)) => Ok(Some(cycle)),
        Err(OrderStop::Memory) => Err(Memory),
    }
}

/// The cycle that stands in the way of an order, where there is one. All indexes are below the count.
fn cycle_in(
    alloc: Global,
    count: u32,
    containers: &Containers,
    edges: &EdgeList,
) -> Result<Option<Indexes>, Memory>
    requires below { AllBelow (map containment_pair containers.now) count }
    requires edges_below { AllBelow (map edge_pair edges.now) count }
    ensures { IfOk result (λ o. o
        ≡ cycle_meant (map containment_pair containers.now) (map edge_pair edges.now) count) }
{
    match build(alloc, count, containers, edges) {
        Ok(graph) => cycle_before(alloc, &graph),
        Err(GraphStop::Contains(cycle)) => Ok(Some(cycle)),
        Err(GraphStop::Memory) => Err(Memory),
    }
}

/// The fault where a resource stands inside itself, or comes before itself.
pub fn check_order(
    alloc: Global,
    book: &Book,
    resources: &[Held],
    edges: &EdgeList,
) -> Result<(), Stop>
    requires few { length resources.now < 2 ^ 32 }
    requires below { AllBelow (containment resources.now) (length resources.now) }
    requires edges_below { AllBelow (map edge_pair edges.now) (length resources.now) }
    ensures { Answers result (order_checked book.now resources.now edges.now) }
{
    let containers = containers(alloc, resources)?;
    match cycle_in(alloc, resources.len() as u32, &containers, edges)? {
        Some(cycle) => cycle_of(alloc, book, &cycle),
        None => Ok(()),
    }
}
