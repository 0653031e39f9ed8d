// Lists cut into runs of neighbours, and results put together again.
ghost use Rattle.std.specs.Prelude.{◌≡◌, ◌<◌, ◌≤◌, length, IfOk};
ghost use Rattle.work_pool.specs.Groups.{together, run_count, share, AreWithin, gathered, AreOk};

use std::alloc::{AllocError, Global};

/// A run of neighbours for each thread, or for each item where these are fewer, the last run first. No run is
/// longer than an even share, rounded up.
#[tactic(auto, using(crate::proofs::Shares::shares_cover))]
pub fn grouped<T: Drop>(
    alloc: Global,
    mut items: Vec<T>,
    threads: usize,
) -> Result<Vec<Vec<T>>, AllocError>
    requires { 0 < threads }
    ensures items { IfOk result (λ groups. together groups.items ≡ items.items) }
    ensures count { IfOk result (λ groups. length groups.items ≡ run_count (length items.items) threads) }
    ensures even { IfOk result (λ groups.
        AreWithin (share (length items.items) (run_count (length items.items) threads)) groups.items) }
{
    let count = threads.min(items.len().max(1));
    let mut groups = Vec::with_capacity(alloc, count)?;
    let mut left = count;
    while left > 1 {
        let start = items.len() - items.len() / left;
        groups.push(items.split_off(start)?)?;
        left -= 1;
    }
    groups.push(items)?;
    Ok(groups)
}

/// The items of all runs, of which the last stands first, where no run was refused.
pub fn put_together<T: Drop>(
    alloc: Global,
    mut parts: Vec<Result<Vec<T>, AllocError>>,
) -> Result<Vec<T>, AllocError>
    ensures items { IfOk result (λ all. all.items ≡ gathered parts.items) }
    ensures ok { IfOk result (λ _. AreOk parts.items) }
{
    let mut all = Vec::new(alloc);
    while let Some(part) = parts.pop() {
        let mut part = part?;
        all.append(&mut part)?;
    }
    Ok(all)
}
