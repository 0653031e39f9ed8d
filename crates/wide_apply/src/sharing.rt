//! The turns of a wave, side by side.
ghost use Rattle.std.specs.Prelude.{◌≡◌, ◌<◌, ◌++◌, IfOk, OnOk};
ghost use Rattle.wide_apply.specs.Apart.{TakesAll};
ghost use Rattle.wide_apply.specs.Shares.{dealt, gathered, AreOk};

use crate::apart_turn::ApartTurn;
use crate::share::Share;
use crate::taken_turn::TakenTurn;
use agent_machine::Machine;
use pp_values::Memory;
use std::alloc::{AllocError, Global};
use std::mem;
use std::thread::Threads;
use work_pool::run_all;

/// How many turns a worker has at most: an even share, rounded up.
fn even_share(turns: usize, workers: usize) -> usize
    requires { 0 < workers }
    ensures { 0 < result }
{
    (turns.saturating_sub(1) / workers).saturating_add(1)
}

/// Deals a share out, if it has so many turns.
fn deal<P: Drop>(
    alloc: Global,
    size: usize,
    own: &mut Vec<ApartTurn<P>>,
    shares: &mut Vec<Share<P>>,
) -> Result<(), AllocError>
    ensures { OnOk result (dealt shares.new.items ++ own.new.items ≡ dealt shares.old.items ++ own.old.items) }
{
    if own.len() < size {
        return Ok(());
    }
    let turns = mem::replace(own, Vec::new(alloc));
    shares.push(Share { alloc, turns })?;
    Ok(())
}

/// Deals turns out, so many to each worker.
fn shares_of<P: Drop>(
    alloc: Global,
    turns: Vec<ApartTurn<P>>,
    size: usize,
) -> Result<Vec<Share<P>>, AllocError>
    ensures { IfOk result (λ v. dealt v.items ≡ turns.items) }
{
    let mut shares = Vec::new(alloc);
    let mut own = Vec::new(alloc);
    for turn in turns {
        deal(alloc, size, &mut own, &mut shares)?;
        own.push(turn)?;
    }
    shares.push(Share { alloc, turns: own })?;
    Ok(shares)
}

/// The results of all shares, where memory was wanting in none.
fn gather<P: Drop>(
    alloc: Global,
    parts: Vec<Result<Vec<TakenTurn<P>>, Memory>>,
) -> Result<Vec<TakenTurn<P>>, Memory>
    ensures all { IfOk result (λ v. v.items ≡ gathered parts.items) }
    ensures ok { IfOk result (λ _. AreOk parts.items) }
{
    let mut all = Vec::new(alloc);
    for part in parts {
        let mut part = part?;
        all.append(&mut part)?;
    }
    Ok(all)
}

/// Takes turns side by side, by so many workers.
pub fn take_side_by_side<P: Machine + Send + Drop + 'static, R: Threads>(
    rt: &R,
    alloc: Global,
    turns: Vec<ApartTurn<P>>,
    workers: u32,
) -> Result<Vec<TakenTurn<P>>, Memory>
    requires { 0 < workers }
    ensures { IfOk result (λ v. TakesAll P.Machine.state turns.items v.items) }
{
    let size = even_share(turns.len(), workers as usize);
    let shares = shares_of(alloc, turns, size)?;
    let parts = run_all(rt, alloc, shares)?;
    let taken = gather(alloc, parts)?;
    Ok(taken)
}
