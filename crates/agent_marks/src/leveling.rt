//! Levels rise along arrows until none leads too far up.
ghost use Rattle.std.specs.Prelude.{◌≡◌, ◌↔◌, ◌+◌, ◌<◌, ◌&&◌, ◌||◌, ℕ, false, nat_eq, length, get_or, IfOk, OnOk};
ghost use Rattle.std.specs.List.{All, Contains};
ghost use Rattle.std.specs.declared.alloc.Global.{Global};
ghost use Rattle.std.specs.declared.vec.Vec.{Vec};
ghost use Rattle.rel_graph.specs.Chains.{Paired};
ghost use Rattle.rel_graph.specs.Marks.{Marked};
ghost use Rattle.rel_graph.specs.Pairs.{AllBelow};
ghost use Rattle.agent_marks.specs.Levels.{level_at, step, Settled, Earned, Rises};
ghost use Rattle.agent_marks.specs.Nodes.{begin_of, targets};

use crate::arrows::begin;
use pp_values::Memory;
use std::alloc::{AllocError, Global};

/// Marks the begins of these resources.
pub fn starts_of(alloc: Global, nodes: usize, counted: &[u32]) -> Result<Vec<bool>, AllocError>
    requires { All (λ x. begin_of x < nodes) counted.now }
    ensures { IfOk result (λ starts. (v : ℕ) → Marked starts.items v ↔ ((x : ℕ) × Contains counted.now x ×
        (v ≡ begin_of x))) }
{
    let mut starts = vec![in alloc; false; nodes]?;
    for at in counted {
        starts[begin(*at)] = true;
    }
    Ok(starts)
}

/// Whether the arrow leads from a begin that is marked to its end.
fn is_step(starts: &Vec<bool>, from: usize, to: usize) -> bool
    ensures { result ≡ (get_or starts.now.items from false && nat_eq to (from + 1)) }
{
    match starts.get(from) {
        Some(start) => *start && is_next(from, to),
        None => false,
    }
}

fn is_next(from: usize, to: usize) -> bool
    ensures { result ≡ nat_eq to (from + 1) }
{
    match from.checked_add(1) {
        Some(next) => to == next,
        None => false,
    }
}

/// The level to which an arrow raises its target.
fn least_behind(
    starts: &Vec<bool>,
    from: usize,
    to: usize,
    levels: &Vec<u32>,
) -> Result<u32, Memory>
    requires { from < length levels.now.items }
    ensures { IfOk result (λ l. l ≡ level_at levels.now.items from + step starts.now.items from to) }
{
    let height = if is_step(starts, from, to) { 1 } else { 0 };
    match levels[from].checked_add(height) {
        Some(least) => Ok(least),
        None => Err(Memory),
    }
}

/// Raises the target of an arrow, if it is too low. Answers whether it was.
fn raise(
    arrows: &[(usize, usize)],
    starts: &Vec<bool>,
    from: usize,
    to: usize,
    levels: &mut Vec<u32>,
) -> Result<bool, Memory>
    requires arrow { Paired arrows.now from to }
    requires from { from < length levels.old.items }
    requires to { to < length levels.old.items }
    ensures { IfOk result (λ rose. Rises arrows.now starts.now.items (λ u v. (u ≡ from) ×
        (v ≡ to)) rose levels.old.items levels.new.items) }
{
    let least = least_behind(starts, from, to, levels)?;
    if levels[to] < least {
        levels[to] = least;
        Ok(true)
    } else {
        Ok(false)
    }
}

fn either(one: bool, other: bool) -> bool
    ensures { result ≡ (one || other) }
{
    one || other
}

/// Raises these targets of a node. Answers whether one was too low.
fn raise_all(
    arrows: &[(usize, usize)],
    starts: &Vec<bool>,
    from: usize,
    targets: &[usize],
    levels: &mut Vec<u32>,
) -> Result<bool, Memory>
    requires paired { All (λ t. Paired arrows.now from t) targets.now }
    requires within { All (λ t. t < length levels.old.items) targets.now }
    requires from { from < length levels.old.items }
    ensures { IfOk result (λ rose. Rises arrows.now starts.now.items (λ u v. (u ≡ from) ×
        Contains targets.now v) rose levels.old.items levels.new.items) }
{
    let mut rose = false;
    for to in targets {
        let more = raise(arrows, starts, from, *to, levels)?;
        rose = either(more, rose);
    }
    Ok(rose)
}

/// Raises the targets of a node. Answers whether one was too low.
fn raise_from(
    arrows: &[(usize, usize)],
    starts: &Vec<bool>,
    from: usize,
    table: &Vec<Vec<usize>>,
    levels: &mut Vec<u32>,
) -> Result<bool, Memory>
    requires below { AllBelow arrows.now (length table.now.items) }
    requires table { (u : ℕ) (d : Vec ℕ Global) → u < length table.now.items →
        (get_or table.now.items u d).items ≡ targets arrows.now u }
    requires long { length levels.old.items ≡ length table.now.items }
    requires from { from < length table.now.items }
    ensures { IfOk result (λ rose. Rises arrows.now starts.now.items (λ u v. (u ≡ from) ×
        Paired arrows.now u v) rose levels.old.items levels.new.items) }
{
    let rose = raise_all(arrows, starts, from, table[from].as_slice(), levels)?;
    Ok(rose)
}

/// Raises the targets of a node, if it is one.
fn raise_at(
    arrows: &[(usize, usize)],
    starts: &Vec<bool>,
    node: usize,
    table: &Vec<Vec<usize>>,
    levels: &mut Vec<u32>,
) -> Result<(), Memory>
    requires below { AllBelow arrows.now (length table.now.items) }
    requires table { (u : ℕ) (d : Vec ℕ Global) → u < length table.now.items →
        (get_or table.now.items u d).items ≡ targets arrows.now u }
    requires long { length levels.old.items ≡ length table.now.items }
    ensures long { OnOk result (length levels.new.items ≡ length levels.old.items) }
    ensures earned { OnOk result (Earned arrows.now starts.now.items levels.old.items →
        Earned arrows.now starts.now.items levels.new.items) }
{
    if node >= table.len() {
        return Ok(());
    }
    let _rose = raise_from(arrows, starts, node, table, levels)?;
    Ok(())
}

/// Raises the targets of these nodes, one after another.
pub fn rise_by(
    arrows: &[(usize, usize)],
    order: &[usize],
    starts: &Vec<bool>,
    table: &Vec<Vec<usize>>,
    levels: &mut Vec<u32>,
) -> Result<(), Memory>
    requires below { AllBelow arrows.now (length table.now.items) }
    requires table { (u : ℕ) (d : Vec ℕ Global) → u < length table.now.items →
        (get_or table.now.items u d).items ≡ targets arrows.now u }
    requires long { length levels.old.items ≡ length table.now.items }
    ensures long { OnOk result (length levels.new.items ≡ length levels.old.items) }
    ensures earned { OnOk result (Earned arrows.now starts.now.items levels.old.items →
        Earned arrows.now starts.now.items levels.new.items) }
{
    for node in order {
        raise_at(arrows, starts, *node, table, levels)?;
    }
    Ok(())
}

/// Raises the targets of all nodes. Answers whether one was too low.
fn raise_each(
    arrows: &[(usize, usize)],
    starts: &Vec<bool>,
    table: &Vec<Vec<usize>>,
    levels: &mut Vec<u32>,
) -> Result<bool, Memory>
    requires below { AllBelow arrows.now (length table.now.items) }
    requires table { (u : ℕ) (d : Vec ℕ Global) → u < length table.now.items →
        (get_or table.now.items u d).items ≡ targets arrows.now u }
    requires long { length levels.old.items ≡ length table.now.items }
    ensures { IfOk result (λ rose. Rises arrows.now starts.now.items
        (λ u v. Paired arrows.now u v) rose levels.old.items levels.new.items) }
{
    let mut rose = false;
    for node in 0..table.len() {
        let more = raise_from(arrows, starts, node, table, levels)?;
        rose = either(more, rose);
    }
    Ok(rose)
}

/// Raises levels until no arrow leads too far up.
pub fn settle(
    arrows: &[(usize, usize)],
    starts: &Vec<bool>,
    table: &Vec<Vec<usize>>,
    levels: &mut Vec<u32>,
) -> Result<(), Memory>
    requires below { AllBelow arrows.now (length table.now.items) }
    requires table { (u : ℕ) (d : Vec ℕ Global) → u < length table.now.items →
        (get_or table.now.items u d).items ≡ targets arrows.now u }
    requires long { length levels.old.items ≡ length table.now.items }
    ensures settled { OnOk result (Settled arrows.now starts.now.items levels.new.items) }
    ensures earned { OnOk result (Earned arrows.now starts.now.items levels.old.items →
        Earned arrows.now starts.now.items levels.new.items) }
{
    while raise_each(arrows, starts, table, levels)? {}
    Ok(())
}
