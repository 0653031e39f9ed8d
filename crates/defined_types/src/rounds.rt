//! Rounds.
ghost use Rattle.std.specs.Prelude.{◌≡◌, ◌≤◌, ◌+◌, ◌&&◌, OnOk};
ghost use Rattle.defined_types.specs.Bound.{most_looks};
ghost use Rattle.defined_types.specs.Rounds as rounds;
ghost use Rattle.defined_types.specs.Watched as spec;
ghost use Rattle.eval_world.specs.Outcomes.{Gives, nothing};
ghost use Rattle.world_laws.specs.Extends.{IsPlaced};

use crate::imports::import_all;
use crate::instances::run_pending;
use crate::watchlist::{Watchlist, count, touched_at};
use class_eval::Evaluator;
use eval_world::Here;
use export_store::Version;
use pp_values::{Memory, Stop, Text, What};
use std::alloc::Global;

/// How many rounds a compile may have.
pub const ROUND_LIMIT: u32 = 1_000;

/// Has the collectors take what is declared and what the other nodes export, and evaluates instances of defines, until
/// a round adds nothing. Where the last round that is allowed still adds something it is F27.
///
/// A collector looks at a declaration again only where more lines and defaults came to concern it: so often at most as
/// these are, and once more.
pub fn run_rounds(
    alloc: Global,
    evaluator: &mut Evaluator<'_>,
    sets: &Version,
    node: &Text,
) -> Result<(), Stop>
    requires { IsPlaced evaluator.old.world }
    ensures world { Gives nothing (rounds.rounds node.now sets.now evaluator.old.world) result evaluator.new.world }
    ensures node { evaluator.new.node ≡ evaluator.old.node }
    ensures looks { OnOk result (evaluator.new.looks ≤ evaluator.old.looks + most_looks evaluator.new.world) }
{
    let mut watch = Watchlist::new(alloc);
    all_rounds(alloc, evaluator, &mut watch, sets, node)
}

#[tactic(auto, using(crate::proofs::Counts::one_round, crate::proofs::Counts::no_round))]
fn all_rounds(
    alloc: Global,
    evaluator: &mut Evaluator<'_>,
    watch: &mut Watchlist,
    sets: &Version,
    node: &Text,
) -> Result<(), Stop>
    ensures told { spec.Tells (spec.watched_left rounds.limit node.now sets.now (spec.seen evaluator.old watch.old))
        result (spec.seen evaluator.new watch.new) }
    ensures node { evaluator.new.node ≡ evaluator.old.node }
{
    let mut left = ROUND_LIMIT;
    while left > 0 {
        if !round(alloc, evaluator, watch, sets, node)? {
            return Ok(());
        }
        left -= 1;
    }
    Err(Stop::Fault(evaluator.fault(Here::top(), 1, What::RoundLimit)?))
}

/// One round: whether it added something.
#[tactic(auto, unfolding(crate::specs::Watched::watched_round), using(crate::proofs::Watches::lifted_told))]
fn round(
    alloc: Global,
    evaluator: &mut Evaluator<'_>,
    watch: &mut Watchlist,
    sets: &Version,
    node: &Text,
) -> Result<bool, Stop>
    ensures told { spec.Tells (spec.watched_round node.now sets.now (spec.seen evaluator.old watch.old))
        result (spec.seen evaluator.new watch.new) }
    ensures node { evaluator.new.node ≡ evaluator.old.node }
{
    count(alloc, evaluator, watch)?;
    let added = all_turns(alloc, evaluator, watch, sets, node)?;
    let more = run_pending(alloc, evaluator, added)?;
    Ok(more)
}

/// All collectors, one after another.
#[tactic(auto, using(crate::proofs::Counts::one_turn, crate::proofs::Counts::no_turn))]
fn all_turns(
    alloc: Global,
    evaluator: &mut Evaluator<'_>,
    watch: &mut Watchlist,
    sets: &Version,
    node: &Text,
) -> Result<bool, Stop>
    ensures told { spec.Tells (spec.all_watched node.now sets.now (spec.seen evaluator.old watch.old))
        result (spec.seen evaluator.new watch.new) }
    ensures node { evaluator.new.node ≡ evaluator.old.node }
{
    let count = evaluator.collectors();
    let mut added = false;
    let mut collector = 0;
    while collector < count {
        let more = turn(alloc, evaluator, watch, collector, sets, node)?;
        added = more || added;
        collector += 1;
    }
    Ok(added)
}

#[tactic(auto, unfolding(crate::specs::Watched::watched_turn))]
fn turn(
    alloc: Global,
    evaluator: &mut Evaluator<'_>,
    watch: &mut Watchlist,
    collector: u32,
    sets: &Version,
    node: &Text,
) -> Result<bool, Stop>
    ensures told { spec.Tells (spec.watched_turn collector node.now sets.now (spec.seen evaluator.old watch.old))
        result (spec.seen evaluator.new watch.new) }
    ensures node { evaluator.new.node ≡ evaluator.old.node }
{
    let looked = look_in_turn(evaluator, watch, collector)?;
    let added = take_exports(alloc, evaluator, watch, collector, looked, sets, node)?;
    Ok(added)
}

/// What a collector takes of what is declared here. Its turn begins.
#[tactic(auto, unfolding(crate::specs::Watched::looks_of_turn))]
fn look_in_turn(
    evaluator: &mut Evaluator<'_>,
    watch: &mut Watchlist,
    collector: u32,
) -> Result<bool, Stop>
    ensures told { spec.Tells (spec.looks_of_turn collector (spec.seen evaluator.old watch.old))
        result (spec.seen evaluator.new watch.new) }
    ensures node { evaluator.new.node ≡ evaluator.old.node }
{
    let begun = watch.clock;
    let added = take_locals(evaluator, watch, collector)?;
    watch.turn(collector, begun);
    Ok(added)
}

/// What a collector takes of what the other nodes export. Where that may have added something, it is counted anew what
/// concerns each declaration.
#[tactic(auto, unfolding(crate::specs::Watched::with_imports), using(crate::proofs::Watches::lifted_told))]
fn take_exports(
    alloc: Global,
    evaluator: &mut Evaluator<'_>,
    watch: &mut Watchlist,
    collector: u32,
    before: bool,
    sets: &Version,
    node: &Text,
) -> Result<bool, Stop>
    ensures told { spec.Tells (spec.with_imports collector before node.now sets.now (spec.seen evaluator.old watch.old))
        result (spec.seen evaluator.new watch.new) }
    ensures node { evaluator.new.node ≡ evaluator.old.node }
{
    let imports = evaluator.imports(collector).is_some();
    let added = import_all(alloc, evaluator, collector, before, sets, node)?;
    count_if(alloc, evaluator, watch, imports & added)?;
    Ok(added)
}

fn count_if(
    alloc: Global,
    evaluator: &Evaluator<'_>,
    watch: &mut Watchlist,
    anew: bool,
) -> Result<(), Memory>
    ensures { OnOk result (spec.seen evaluator.now watch.new
        ≡ spec.counted_if anew (spec.seen evaluator.now watch.old)) }
{
    if anew {
        count(alloc, evaluator, watch)?;
    }
    Ok(())
}

/// What a collector takes of what is declared here. One that comes from the function `realize` looks up the declaration
/// that it names.
#[tactic(auto, unfolding(crate::specs::Watched::look_locals))]
fn take_locals(
    evaluator: &mut Evaluator<'_>,
    watch: &mut Watchlist,
    collector: u32,
) -> Result<bool, Stop>
    ensures told { spec.Tells (spec.look_locals collector (spec.seen evaluator.old watch.old))
        result (spec.seen evaluator.new watch.new) }
    ensures node { evaluator.new.node ≡ evaluator.old.node }
{
    match evaluator.realized(collector) {
        Some(reference) => {
            let number = evaluator.book().find(reference);
            look_named(evaluator, watch, collector, number)
        }
        None => look_each(evaluator, watch, collector),
    }
}

fn look_named(
    evaluator: &mut Evaluator<'_>,
    watch: &mut Watchlist,
    collector: u32,
    number: Option<u32>,
) -> Result<bool, Stop>
    ensures told { spec.Tells (spec.look_named collector number (spec.seen evaluator.old watch.old))
        result (spec.seen evaluator.new watch.new) }
    ensures node { evaluator.new.node ≡ evaluator.old.node }
{
    match number {
        Some(number) => look(evaluator, watch, collector, number),
        None => Ok(false),
    }
}

#[tactic(auto, using(crate::proofs::Counts::one_look, crate::proofs::Counts::no_look))]
fn look_each(
    evaluator: &mut Evaluator<'_>,
    watch: &mut Watchlist,
    collector: u32,
) -> Result<bool, Stop>
    ensures told { spec.Tells (spec.look_all collector (spec.seen evaluator.old watch.old))
        result (spec.seen evaluator.new watch.new) }
    ensures node { evaluator.new.node ≡ evaluator.old.node }
{
    let count = evaluator.book().count();
    let mut added = false;
    let mut number = 0;
    while number < count {
        let more = look(evaluator, watch, collector, number)?;
        added = more || added;
        number += 1;
    }
    Ok(added)
}

/// A look of a collector at a declaration, unless nothing more came to concern that since the collector's last turn
/// began.
#[tactic(auto, unfolding(crate::specs::Watched::look))]
fn look(
    evaluator: &mut Evaluator<'_>,
    watch: &mut Watchlist,
    collector: u32,
    number: u32,
) -> Result<bool, Stop>
    ensures told { spec.Tells (spec.look collector number (spec.seen evaluator.old watch.old))
        result (spec.seen evaluator.new watch.new) }
    ensures node { evaluator.new.node ≡ evaluator.old.node }
{
    if watch.is_noted(collector, number) {
        return Ok(false);
    }
    let more = evaluator.local_match(collector, number)?;
    let touched = touched_at(evaluator, number);
    watch.tell(number, touched)?;
    Ok(more)
}
