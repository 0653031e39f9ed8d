//! The blocks of collectors.
ghost use Rattle.std.specs.Prelude.{◌≡◌, ◌<◌, length, slice_get, IfOk};
ghost use Rattle.eval_collecting.specs.Blocks as spec;
ghost use Rattle.eval_world.specs.Outcomes.{Gives, nothing, same};
ghost use Rattle.override_rules.specs.Lines.{line_of as over_line};
ghost use Rattle.res_core.specs.Lines.{line_of, lines_of};

use crate::references::reference_of;
use eval_world::World;
use override_rules::{OverrideLine, Overrides, Right};
use pp_values::{Memory, Reference, Stop, copy};
use res_book::Book;
use res_core::Line;
use std::alloc::Global;

/// Applies the block of a collector to a declaration: true exactly where it has one that was not applied to it before.
#[tactic(auto, unfolding(crate::specs::Blocks::block_applied, crate::specs::Blocks::apply_block))]
pub fn apply_block(world: &mut World<'_>, collector: u32, number: u32) -> Result<bool, Stop>
    ensures { Gives same (spec.block_applied collector number world.old) result world.new }
{
    if !is_due(world, collector, number) {
        return Ok(false);
    }
    world.relations.mark_applied(collector, number)?;
    put_block(world, collector, number)?;
    Ok(true)
}

fn is_due(world: &World<'_>, collector: u32, number: u32) -> bool
    ensures { result ≡ spec.is_due world.now collector number }
{
    has_lines(world, collector) && !world.relations.is_applied(collector, number)
}

/// Whether the collector has a block with lines.
fn has_lines(world: &World<'_>, collector: u32) -> bool
    ensures { result ≡ spec.has_lines (slice_get world.now.relations.collectors collector) }
{
    match world.relations.collectors().get(collector as usize) {
        Some(collector) => collector.lines.len() > 0,
        None => false,
    }
}

/// Puts the lines of the collector's block on the declaration, behind all others.
#[tactic(auto, unfolding(crate::specs::Blocks::lines_added), using(crate::proofs::Numbers::nothing_said))]
fn put_block(world: &mut World<'_>, collector: u32, number: u32) -> Result<(), Stop>
    ensures { Gives nothing (spec.put_lines (spec.said_at world.old collector number) world.old) result world.new }
{
    if number >= world.book.count() {
        return Ok(());
    }
    put_on(world, collector, number)
}

#[tactic(auto, unfolding(crate::specs::Blocks::lines_added))]
fn put_on(world: &mut World<'_>, collector: u32, number: u32) -> Result<(), Stop>
    requires { number < length world.old.book }
    ensures { Gives nothing (spec.put_lines (spec.said_at world.old collector number) world.old) result world.new }
{
    let alloc = world.heap.alloc();
    match world.relations.collectors().get(collector as usize) {
        Some(collector) => {
            let target = reference_of(alloc, &world.book.row(number).declared.item)?;
            let lines = collector.lines.as_slice();
            put_lines(alloc, &mut world.overrides, &world.book, &target, lines)
        }
        None => Ok(()),
    }
}

#[tactic(auto, unfolding(crate::specs::Blocks::lines_added))]
fn put_lines(
    alloc: Global,
    overrides: &mut Overrides,
    book: &Book,
    target: &Reference,
    lines: &[Line],
) -> Result<(), Stop>
    ensures { spec.Puts (spec.lines_added book.now (spec.lines_on target.now (lines_of lines.now)) overrides.old)
        result overrides.new }
{
    let mut left = lines;
    while let [line, after @ ..] = left {
        overrides.add_line(alloc, book, line_on(alloc, target, line)?)?;
        left = after;
    }
    Ok(())
}

/// A line of a block may set and change anything.
fn line_on(alloc: Global, target: &Reference, line: &Line) -> Result<OverrideLine, Memory>
    ensures { IfOk result (λ l. over_line l ≡ spec.line_on target.now (line_of line.now)) }
{
    let target = target.copy(alloc)?;
    let name = line.name.copy(alloc)?;
    let value = copy(alloc, &line.value)?;
    let at = line.at.copy(alloc)?;
    Ok(OverrideLine {
        target,
        name,
        append: line.append,
        value,
        at,
        right: Right::Any,
    })
}
