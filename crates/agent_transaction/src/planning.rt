//! Which resources have turns, with all that these need.
ghost use Rattle.std.specs.Prelude.{◌≡◌, ◌<◌, ◌++◌, length, map, IfOk, OnOk, IfSome, option_map};
ghost use Rattle.agent_transaction.specs.Marking.{planned_pair, AreBelow};
ghost use Rattle.agent_transaction.specs.Runs.{task_at as task_meant, taken_at, tasks_at as tasks_meant};

use crate::plan::Plan;
use crate::planned::Planned;
use crate::ready::Ready;
use crate::task::Task;
use crate::tasks::task_in;
use pp_values::Memory;
use res_core::Held;
use std::alloc::Global;

/// What the turn of the resource at this index has to do.
fn task_at(alloc: Global, resources: &[Held], at: u32) -> Result<Option<Task>, Memory>
    ensures task { IfOk result (λ o. o ≡ task_meant resources.now at) }
    ensures below { IfOk result (λ o. IfSome o (λ _. at < length resources.now)) }
{
    match resources.get(at as usize) {
        Some(held) => task_in(alloc, held.item.as_resource()),
        None => Ok(None),
    }
}

fn planned_at(alloc: Global, resources: &[Held], at: u32) -> Result<Option<Planned>, Memory>
    ensures planned { IfOk result (λ o. option_map planned_pair o ≡ option_map (λ task. (at, task)) (task_meant resources.now at)) }
    ensures below { IfOk result (λ o. IfSome o (λ p. p.at < length resources.now)) }
{
    match task_at(alloc, resources, at)? {
        Some(task) => {
            let ready = Ready::new(alloc, task)?;
            Ok(Some(Planned { at, ready }))
        }
        None => Ok(None),
    }
}

/// Puts the turn of the resource at this index behind the others, where it has one.
fn put_planned(
    alloc: Global,
    resources: &[Held],
    at: u32,
    plan: &mut Vec<Planned>,
) -> Result<(), Memory>
    ensures planned { OnOk result (map planned_pair plan.new.items ≡ map planned_pair plan.old.items ++ taken_at resources.now at) }
    ensures below { OnOk result (AreBelow (length resources.now) plan.old.items → AreBelow (length resources.now) plan.new.items) }
{
    match planned_at(alloc, resources, at)? {
        Some(planned) => plan.push(planned)?,
        None => {}
    }
    Ok(())
}

/// The turns of the resources at these indexes.
pub fn plan_of(alloc: Global, resources: &[Held], order: &[u32]) -> Result<Plan, Memory>
    ensures planned { IfOk result (λ p. map planned_pair p ≡ tasks_meant resources.now order.now) }
    ensures below { IfOk result (λ p. AreBelow (length resources.now) p) }
{
    let mut items = Vec::new(alloc);
    let mut left = order;
    while let [at, after @ ..] = left {
        put_planned(alloc, resources, *at, &mut items)?;
        left = after;
    }
    Ok(Plan::from_vec(items))
}
