//! What default bodies fill into another body.
ghost use Rattle.std.specs.Prelude.{◌≡◌, ◌++◌, ◌∷◌, [], drop, filter, if◌then◌else◌, not, take, IfOk, OnOk};
ghost use Rattle.eval_resources.specs.Bodies as spec;
ghost use Rattle.res_core.specs.Lines.{lines_of, line_of};
ghost use Rattle.pp_values.specs.Rising.{has_text, sorted, with_texts};

use pp_values::{Memory, Text};
use res_core::{Line, Lines};
use std::alloc::Global;
use std::collections::BTreeSet;

/// The own lines of a body, behind what the default bodies before it fill in, and before what the others do. So many
/// stand before it. Where there is no default body these are its own.
pub fn filled(alloc: Global, own: Lines, before: usize, defaults: &[Lines]) -> Result<Lines, Memory>
    ensures { IfOk result (λ ls. ls ≡ spec.filled own before defaults.now) }
{
    match defaults {
        [] => Ok(own),
        [_, ..] => filled_with(alloc, own, before, defaults),
    }
}

#[tactic(auto, using(crate::proofs::NameSets::unwritten_sorted))]
fn filled_with(
    alloc: Global,
    own: Lines,
    before: usize,
    defaults: &[Lines],
) -> Result<Lines, Memory>
    ensures { IfOk result (λ ls. ls ≡ spec.filled own before defaults.now) }
{
    let names = names_of(alloc, own.as_slice())?;
    let (front, back) = parted(defaults, before);
    let filled = with_all_unwritten(alloc, Lines::new(alloc), &names, front)?;
    let filled = join_lines(filled, own)?;
    with_all_unwritten(alloc, filled, &names, back)
}

/// So many of them, and the others.
#[tactic(auto, using(crate::proofs::NameSets::all_taken, crate::proofs::NameSets::none_left))]
fn parted(defaults: &[Lines], count: usize) -> (&[Lines], &[Lines])
    ensures front { result.0.now ≡ take count defaults.now }
    ensures back { result.1.now ≡ drop count defaults.now }
{
    if count < defaults.len() {
        return defaults.split_at(count);
    }
    (defaults, &[])
}

fn join_lines(mut done: Lines, more: Lines) -> Result<Lines, Memory>
    ensures { IfOk result (λ ls. ls ≡ done ++ more) }
{
    done.append(more)?;
    Ok(done)
}

/// The names of lines.
fn names_of(alloc: Global, lines: &[Line]) -> Result<BTreeSet<Text>, Memory>
    ensures { IfOk result (λ s. s.keys ≡ sorted (spec.line_names (lines_of lines.now))) }
{
    let mut names = BTreeSet::new(alloc);
    let mut rest = lines;
    while let Some((line, more)) = rest.split_first() {
        names.insert(line.name.copy(alloc)?)?;
        rest = more;
    }
    Ok(names)
}

/// Whether the name is among these.
#[tactic(auto, using(crate::proofs::NameSets::found_text))]
pub fn has_name(names: &BTreeSet<Text>, name: &Text) -> bool
    ensures { result ≡ has_text names.now.keys name.now }
{
    names.contains(name)
}

/// The lines of several bodies whose names are not among these, behind those that are there.
#[tactic(auto, unfolding(crate::specs::Bodies::all_not_among), using(crate::proofs::NameSets::all_not_among_step))]
fn with_all_unwritten(
    alloc: Global,
    done: Lines,
    names: &BTreeSet<Text>,
    bodies: &[Lines],
) -> Result<Lines, Memory>
    ensures { IfOk result (λ ls. ls ≡ done ++ spec.all_not_among names.now.keys bodies.now) }
{
    let mut all = done;
    let mut rest = bodies;
    while let Some((lines, more)) = rest.split_first() {
        all = with_unwritten(alloc, all, names, lines.as_slice())?;
        rest = more;
    }
    Ok(all)
}

/// The lines whose names are not among these, behind those that are there.
#[tactic(auto, using(crate::proofs::NameSets::not_among_step))]
fn with_unwritten(
    alloc: Global,
    done: Lines,
    names: &BTreeSet<Text>,
    lines: &[Line],
) -> Result<Lines, Memory>
    ensures { IfOk result (λ ls. ls
        ≡ done ++ spec.not_among names.now.keys (lines_of lines.now)) }
{
    let mut all = done;
    let mut rest = lines;
    while let Some((line, more)) = rest.split_first() {
        all = with_one(alloc, all, names, line)?;
        rest = more;
    }
    Ok(all)
}

fn with_one(
    alloc: Global,
    mut done: Lines,
    names: &BTreeSet<Text>,
    line: &Line,
) -> Result<Lines, Memory>
    ensures { IfOk result (λ ls. ls
        ≡ done ++ spec.not_among names.now.keys (line_of line.now ∷ [])) }
{
    if has_name(names, &line.name) {
        return Ok(done);
    }
    done.push(line.copy(alloc)?)?;
    Ok(done)
}
