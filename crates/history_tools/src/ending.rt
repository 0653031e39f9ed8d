//! How a search ends after a round.
ghost use Rattle.std.specs.Prelude.{◌≡◌, ◌<◌, length, slice_get, Some, IsSome, IfOk, option_map, option_copied};
ghost use Rattle.std.specs.Arc.{arc_value};
ghost use Rattle.std.specs.FinMap as map;
ghost use Rattle.site_core.specs.Each.{Each};
ghost use Rattle.history_tools.specs.Rounds.{IsReady, EndsRound};
ghost use Rattle.history_tools.specs.declared.outcome.Outcome.TheVariants as o;

use crate::copying::copy_set;
use crate::outcome::Outcome;
use crate::set_changes::first_changed;
use crate::settle_end::SettleEnd;
use export_store::Version;
use pp_values::{Memory, Text, Texts};
use res_core::ExportSet;
use std::alloc::Global;
use std::sync::Arc;

/// How the search ends after a round that came to this, where so many rounds are left, or that it goes on.
pub fn round_end<F: Drop>(
    alloc: Global,
    nodes: &Texts,
    before: &Version,
    after: &Version,
    left: u32,
    outcome: Outcome<F>,
) -> Result<Option<SettleEnd<F>>, Memory>
    requires { IsReady nodes.now after.now outcome }
    ensures { IfOk result (λ end. EndsRound nodes.now before.now after.now left outcome end) }
{
    match outcome {
        Outcome::Whole => whole_end(alloc, nodes, before, after, left),
        Outcome::Refused { place, k, fault } => {
            let node = node_at(nodes, place).copy(alloc)?;
            Ok(Some(SettleEnd::Refused { node, k, fault }))
        }
        Outcome::Full { length } => Ok(Some(SettleEnd::Full { length })),
    }
}

/// The node in this place.
fn node_at(nodes: &Texts, place: usize) -> &Text
    requires { place < length nodes.now }
    ensures { slice_get nodes.now place ≡ Some result.now }
{
    &nodes.as_slice()[place]
}

/// How the search ends after a round in which each node was served.
fn whole_end<F: Drop>(
    alloc: Global,
    nodes: &Texts,
    before: &Version,
    after: &Version,
    left: u32,
) -> Result<Option<SettleEnd<F>>, Memory>
    requires { Each (λ node. IsSome (map.get after.now node)) nodes.now }
    ensures { IfOk result (λ end. EndsRound nodes.now before.now after.now left o.Whole end) }
{
    let Some(node) = first_changed(nodes.as_slice(), before, after) else {
        return Ok(Some(SettleEnd::Settled));
    };
    if left > 0 {
        return Ok(None);
    }
    let Some(set) = after.get(node) else {
        unreachable!()
    };
    let before = shared_choice(alloc, before.get(node))?;
    let after = shared(alloc, set)?;
    let node = node.copy(alloc)?;
    Ok(Some(SettleEnd::NotSettled {
        node,
        before,
        after,
    }))
}

fn shared_choice(alloc: Global, set: Option<&ExportSet>) -> Result<Option<Arc<ExportSet>>, Memory>
    ensures { IfOk result (λ s. option_map arc_value s ≡ option_copied set.entry) }
{
    match set {
        Some(set) => Ok(Some(shared(alloc, set)?)),
        None => Ok(None),
    }
}

fn shared(alloc: Global, set: &ExportSet) -> Result<Arc<ExportSet>, Memory>
    ensures { IfOk result (λ s. arc_value s ≡ set.now) }
{
    Ok(Arc::new(alloc, copy_set(alloc, set)?)?)
}
