//! Resources that other nodes export, as a collector imports them, and what becomes of them.
ghost use Rattle.std.specs.Prelude.{◌≡◌, ◌<◌, length, option_copied, slice_get, IfOk};
ghost use Rattle.eval_collecting.specs.Importing as spec;
ghost use Rattle.eval_world.specs.Outcomes.{Gives, same};
ghost use Rattle.pp_values.specs.Answers.{Answers};

use crate::blocks::apply_block;
use crate::matching::asks;
use crate::references::reference_of;
use eval_resources::{KnownKind, check_attributes, check_kind, container_in};
use eval_world::{Environment, Owner, World};
use pp_values::{Memory, Stop, Text};
use res_book::{Book, Collector, Mode};
use res_core::{Declared, Exported, Resource, copy_resource};
use std::alloc::Global;

/// The kind whose exports a collector takes, where it takes any.
pub fn imports<'w>(world: &'w World<'_>, collector: u32) -> Option<&'w Text>
    ensures { option_copied result ≡ spec.imports world.now collector }
{
    match world.relations.collectors().get(collector as usize) {
        Some(collector) if collector.exported => Some(collector.kind.as_text()),
        _ => None,
    }
}

/// A tag that all has which a collector finds, where its query tells one.
pub fn needed_tag<'w>(world: &'w World<'_>, collector: u32) -> Option<&'w Text>
    ensures { option_copied result ≡ spec.needed_tag world.now collector }
{
    match world.relations.collectors().get(collector as usize) {
        Some(collector) => tag_of(collector),
        None => None,
    }
}

fn tag_of(collector: &Collector) -> Option<&Text>
    ensures { option_copied result ≡ spec.tag_by collector.now.realized collector.now.query }
{
    match &collector.realized {
        Some(_) => None,
        None => collector_query::needed_tag(collector.query.as_query()),
    }
}

/// Whether one collector finds the resource that a node exports at this place of its set, which is declared then unless
/// it was imported before, and to which the collector's block is applied where it was not before: true exactly where it
/// is declared here, or the block is applied now.
#[tactic(auto, unfolding(crate::specs::Importing::import_match))]
pub fn import_match(
    world: &mut World<'_>,
    collector: u32,
    node: &Text,
    place: u32,
    exported: &Exported,
) -> Result<bool, Stop>
    ensures { Gives same (spec.import_match collector node.now place exported.now world.old) result world.new }
{
    match owner_for(world, collector, exported) {
        Some(owner) => import_once(world, collector, owner, node, place, exported),
        None => Ok(false),
    }
}

/// Whose an import of the collector is, where it finds the resource.
fn owner_for(world: &World<'_>, collector: u32, exported: &Exported) -> Option<u32>
    ensures { result ≡ spec.owner_for world.now collector exported.now }
{
    match world.relations.collectors().get(collector as usize) {
        Some(collector) if finds(collector, exported) => Some(collector.owner),
        _ => None,
    }
}

#[tactic(auto, unfolding(crate::specs::Importing::import_once))]
fn import_once(
    world: &mut World<'_>,
    collector: u32,
    owner: u32,
    node: &Text,
    place: u32,
    exported: &Exported,
) -> Result<bool, Stop>
    ensures { Gives same (spec.import_once (spec.import_of node.now place exported.now.item world.old.book)
        collector owner node.now place exported.now world.old) result world.new }
{
    let item = exported.item.as_resource();
    match import_of(world.heap.alloc(), &world.book, node, place, item)? {
        Some(number) => apply_block(world, collector, number),
        None => {
            let number = import(world, owner, node, place, exported)?;
            apply_block(world, collector, number)?;
            Ok(true)
        }
    }
}

#[tactic(auto, unfolding(crate::specs::Importing::finds))]
fn finds(collector: &Collector, exported: &Exported) -> bool
    ensures { result ≡ spec.finds collector.now exported.now }
{
    let item = exported.item.as_resource();
    collector.exported && item.kind == collector.kind && asks(collector, item, &item.attributes)
}

/// The number of what was imported from this place.
fn import_of(
    alloc: Global,
    book: &Book,
    node: &Text,
    place: u32,
    item: &Resource,
) -> Result<Option<u32>, Memory>
    ensures { IfOk result (λ o. o ≡ spec.import_of node.now place item.now book.now) }
{
    let reference = reference_of(alloc, item)?;
    match book.find(&reference) {
        Some(number) if is_import_at(book, number, node, place) => Ok(Some(number)),
        _ => Ok(None),
    }
}

#[tactic(auto, using(crate::proofs::Numbers::no_import))]
fn is_import_at(book: &Book, number: u32, node: &Text, place: u32) -> bool
    ensures { result ≡ spec.is_import_of node.now place (slice_get book.now number) }
{
    if number < book.count() {
        return is_same_import(&book.row(number).mode, node, place);
    }
    false
}

fn is_same_import(mode: &Mode, node: &Text, place: u32) -> bool
    ensures { result ≡ spec.same_import node.now place mode.now }
{
    match mode {
        Mode::Plain | Mode::Virtual | Mode::Exported => false,
        Mode::Imported {
            node: from,
            place: at,
        } => from == node && place == *at,
    }
}

/// The tests, the declaration, the override lines that came before it. The answer is its number.
#[tactic(auto, unfolding(crate::specs::Importing::import_rule))]
fn import(
    world: &mut World<'_>,
    owner: u32,
    node: &Text,
    place: u32,
    exported: &Exported,
) -> Result<u32, Stop>
    ensures { Gives same (spec.import_rule owner node.now place exported.now world.old) result world.new }
{
    let alloc = world.heap.alloc();
    let known = tested(alloc, &world.environment, exported)?;
    let number = declare(world, owner, node, place, known, exported)?;
    world.overrides.stand(alloc, &world.book, number)?;
    Ok(number)
}

/// F5 and F10, as of a local declaration.
#[tactic(auto, unfolding(crate::specs::Importing::tested))]
fn tested(
    alloc: Global,
    environment: &Environment<'_>,
    exported: &Exported,
) -> Result<KnownKind, Stop>
    ensures { Answers result (spec.tested environment.now exported.now) }
{
    let item = exported.item.as_resource();
    let at = &exported.node_place;
    let known = check_kind(alloc, environment, item.kind.as_text(), at)?;
    let reference = reference_of(alloc, item)?;
    check_attributes(
        alloc,
        &reference,
        &known.known,
        at,
        item.attributes.as_slice(),
    )?;
    Ok(known)
}

/// Declares the import. The answer is its number.
#[tactic(auto, unfolding(crate::specs::Importing::declare_rule), using(eval_resources::proofs::Containers::contained, eval_resources::proofs::Containers::numbered))]
fn declare(
    world: &mut World<'_>,
    owner: u32,
    node: &Text,
    place: u32,
    known: KnownKind,
    exported: &Exported,
) -> Result<u32, Stop>
    ensures number { Gives same
        (spec.declare_rule owner node.now place known exported.now world.old) result world.new }
    ensures within { IfOk result (λ n. n < length world.new.book) }
{
    let alloc = world.heap.alloc();
    let owner = world.owners.get(owner);
    let item = item_of(alloc, owner, &world.book, known, exported)?;
    let node = node.copy(alloc)?;
    world
        .book
        .declare(alloc, item, Mode::Imported { node, place })
}

fn item_of(
    alloc: Global,
    owner: &Owner,
    book: &Book,
    known: KnownKind,
    exported: &Exported,
) -> Result<Declared, Memory>
    ensures { IfOk result (λ d. d ≡ spec.item_of owner.now book.now known exported.now) }
{
    let item = copy_resource(alloc, exported.item.as_resource())?;
    let at = exported.node_place.copy(alloc)?;
    let class = owner.source.copy(alloc)?;
    let KnownKind { kind: _kind, known } = known;
    Ok(Declared {
        item,
        at,
        scope: owner.scope,
        container: container_in(book, owner.resource),
        class,
        known,
    })
}
