//! All that a run needs, before its first call on the machine.
ghost use Rattle.std.specs.Prelude.{◌≡◌, ◌<◌, ◌^◌, length, MatchResult};
ghost use Rattle.res_core.specs.Catalogs.{IsCatalog};
ghost use Rattle.agent_transaction.specs.Preparing.{IsStop, IsPrepared};

use crate::ordering::order_of;
use crate::plan::Plan;
use crate::planning::plan_of;
use crate::relating::{containers, containment, relations, signalling};
use crate::run_stop::RunStop;
use agent_marks::Marks;
use res_core::{EdgeList, Held};
use std::alloc::Global;

/// The turns, and the marks on what failures block and on what is signalled.
#[derive(Drop)]
pub struct Prepared {
    pub plan: Plan,
    pub blocked: Marks,
    pub signalled: Marks,
}

/// Prepares a run over these resources.
pub fn prepare(
    alloc: Global,
    count: u32,
    resources: &[Held],
    edges: &EdgeList,
) -> Result<Prepared, RunStop>
    requires count { count ≡ length resources.now }
    requires kept { IsCatalog resources.now edges.now }
    ensures { MatchResult result (λ p. IsPrepared resources.now edges.now p.plan p.blocked p.signalled) (IsStop resources.now edges.now) }
{
    let pairs = containment(alloc, resources)?;
    let containers = containers(alloc, pairs.as_slice())?;
    let order = order_of(alloc, count, resources, &containers, edges)?;
    let plan = plan_of(alloc, resources, order.as_slice())?;
    let related = relations(alloc, edges.as_slice())?;
    let blocked = Marks::after(alloc, count, pairs.as_slice(), related.as_slice())?;
    let signals = signalling(alloc, edges.as_slice())?;
    let signalled = Marks::directly_after(alloc, count, pairs.as_slice(), signals.as_slice())?;
    Ok(Prepared {
        plan,
        blocked,
        signalled,
    })
}
