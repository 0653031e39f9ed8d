//! Local declarations that a collector takes, and what becomes of them.
ghost use Rattle.std.specs.Prelude.{◌≡◌, ◌<◌, length, Some, IfOk, option_copied, slice_get};
ghost use Rattle.eval_collecting.specs.Matching as spec;
ghost use Rattle.eval_world.specs.Outcomes.{Gives, same};
ghost use Rattle.override_rules.specs.Names.{attributes_of};

use crate::blocks::apply_block;
use crate::references::is_named;
use collector_query::matches;
use eval_world::World;
use override_rules::Overrides;
use pp_values::{Memory, Reference, Stop};
use res_book::{Book, Collector, Mode, Row};
use res_core::{Attributes, Resource};
use std::alloc::Global;

/// Whether one collector takes one local declaration, which is marked then, and to which the collector's block is
/// applied where it was not before: true exactly where the mark makes it live, or the block is applied now.
#[tactic(auto, unfolding(crate::specs::Matching::local_match), using(crate::proofs::Numbers::none_taken))]
pub fn local_match(world: &mut World<'_>, collector: u32, number: u32) -> Result<bool, Stop>
    ensures { Gives same (spec.local_match collector number world.old) result world.new }
{
    if number >= world.book.count() {
        return Ok(false);
    }
    if takes_at(world, collector, number)? {
        return take(world, collector, number);
    }
    Ok(false)
}

/// Marks the declaration, and then applies the block.
#[tactic(auto, unfolding(crate::specs::Matching::take))]
fn take(world: &mut World<'_>, collector: u32, number: u32) -> Result<bool, Stop>
    requires { number < length world.old.book }
    ensures { Gives same (spec.take collector number world.old) result world.new }
{
    let came_to_life = world.book.realize(number)?;
    let applied = apply_block(world, collector, number)?;
    Ok(came_to_life || applied)
}

fn takes_at(world: &World<'_>, collector: u32, number: u32) -> Result<bool, Memory>
    requires { number < length world.now.book }
    ensures { IfOk result (λ b. b ≡ spec.takes_at world.now collector number) }
{
    match world.relations.collectors().get(collector as usize) {
        Some(collector) => takes(
            world.heap.alloc(),
            &world.overrides,
            &world.book,
            collector,
            number,
        ),
        None => Ok(false),
    }
}

#[tactic(auto, unfolding(crate::specs::Matching::takes), using(crate::proofs::Attributes::asks_same))]
fn takes(
    alloc: Global,
    overrides: &Overrides,
    book: &Book,
    collector: &Collector,
    number: u32,
) -> Result<bool, Memory>
    requires { number < length book.now }
    ensures { IfOk result (λ b. b ≡ spec.taken_by overrides.now (Some collector.now) (slice_get book.now number)) }
{
    let row = book.row(number);
    if !may_take(collector, row) {
        return Ok(false);
    }
    if !reads_attributes(collector) {
        return Ok(asks(collector, &row.declared.item, &row.declared.item.attributes));
    }
    let set = overrides.row_attributes(alloc, row)?;
    Ok(asks(collector, &row.declared.item, &set))
}

/// Whether attributes decide. Else none have to be made.
fn reads_attributes(collector: &Collector) -> bool
    ensures { result ≡ spec.reads_attributes collector.now.realized collector.now.query }
{
    match &collector.realized {
        Some(_) => false,
        None => collector_query::reads_attributes(collector.query.as_query()),
    }
}

/// The one reference that a collector asks for, where it comes from the function `realize`.
pub fn realized<'w>(world: &'w World<'_>, collector: u32) -> Option<&'w Reference>
    ensures { option_copied result ≡ spec.realized world.now collector }
{
    match world.relations.collectors().get(collector as usize) {
        Some(collector) => collector.realized.as_ref(),
        None => None,
    }
}

/// Whether it is open to the collector and of its kind.
fn may_take(collector: &Collector, row: &Row) -> bool
    ensures { result ≡ spec.may_take collector.now row.now }
{
    is_open(collector.exported, &row.mode) && row.declared.item.kind == collector.kind
}

fn is_open(exported: bool, mode: &Mode) -> bool
    ensures { result ≡ spec.is_open exported mode.now }
{
    match mode {
        Mode::Plain | Mode::Virtual => !exported,
        Mode::Exported => true,
        Mode::Imported { node: _, place: _ } => false,
    }
}

/// Whether the collector asks for a resource with these attributes.
pub fn asks(collector: &Collector, resource: &Resource, set: &Attributes) -> bool
    ensures { result ≡ spec.asks collector.now.realized collector.now.query resource.now set.now }
{
    match &collector.realized {
        Some(wanted) => is_named(wanted, resource),
        None => matches(
            collector.query.as_query(),
            &resource.title,
            &resource.tags,
            set,
        ),
    }
}
