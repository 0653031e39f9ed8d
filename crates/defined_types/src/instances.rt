//! Instances of defines that wait to be evaluated.
ghost use Rattle.std.specs.Prelude.{◌≡◌, IfOk};
ghost use Rattle.defined_types.specs.Rounds as spec;
ghost use Rattle.eval_world.specs.Outcomes.{Gives, same};

use class_eval::Evaluator;
use pp_values::{Memory, Stop};
use res_book::Book;
use std::alloc::Global;

/// Evaluates the instances that are pending now. `added` says whether something was added before.
pub fn run_pending(alloc: Global, evaluator: &mut Evaluator<'_>, added: bool) -> Result<bool, Stop>
    ensures world { Gives same
        (spec.run_instances added (spec.pending evaluator.old.world.book) evaluator.old.world) result
        evaluator.new.world }
    ensures node { evaluator.new.node ≡ evaluator.old.node }
    ensures looks { evaluator.new.looks ≡ evaluator.old.looks }
{
    let numbers = pending(alloc, evaluator.book())?;
    run_instances(evaluator, added, numbers.as_slice())
}

#[tactic(auto, unfolding(crate::specs::Rounds::run_instances))]
fn run_instances(evaluator: &mut Evaluator<'_>, before: bool, numbers: &[u32]) -> Result<bool, Stop>
    ensures world { Gives same
        (spec.run_instances before numbers.now evaluator.old.world) result evaluator.new.world }
    ensures node { evaluator.new.node ≡ evaluator.old.node }
    ensures looks { evaluator.new.looks ≡ evaluator.old.looks }
{
    let mut added = before;
    let mut left = numbers;
    while let [number, after @ ..] = left {
        evaluator.run_instance(*number, 1)?;
        added = true;
        left = after;
    }
    Ok(added)
}

/// The numbers of the instances that are pending.
#[tactic(auto, using(crate::proofs::Pending::one_more, crate::proofs::Pending::closer, crate::proofs::Pending::no_more))]
fn pending(alloc: Global, book: &Book) -> Result<Vec<u32>, Memory>
    ensures { IfOk result (λ v. v.items ≡ spec.pending book.now) }
{
    let mut found = Vec::new(alloc);
    let mut after = None;
    while let Some(number) = book.pending(after) {
        found.push(number)?;
        after = Some(number);
    }
    Ok(found)
}
