//! The tests of one title, before the book is asked.
ghost use Rattle.std.specs.Prelude.{◌≡◌, ◌∷◌, [], IfOk, IsTrue};
ghost use Rattle.eval_resources.specs.Checks as spec;
ghost use Rattle.eval_resources.specs.GoodLines as good;
ghost use Rattle.res_core.specs.Lines.{line_of, lines_of};
ghost use Rattle.pp_values.specs.Answers.{Answers};
ghost use Rattle.pp_values.specs.Views.{view};
ghost use Rattle.res_core.specs.AttributeViews.{settings};

use crate::filling::has_name;
use crate::kinds::check_kind;
use crate::known_kind::KnownKind;
use crate::named::Named;
use eval_world::Environment;
use pp_values::{Fault, Memory, Place, Reference, Stop, Subject, Text, Value, What};
use res_core::{Attribute, Body, KnownNames, Line, check_known, is_known};
use std::alloc::Global;
use std::collections::BTreeSet;

/// The first test that fails is the answer: of the kind, of the title, of the lines' names.
#[tactic(auto, unfolding(crate::specs::Checks::tested))]
pub fn tested(
    alloc: Global,
    environment: &Environment<'_>,
    kind: &Text,
    title: &Value,
    body: &Body,
) -> Result<Named, Stop>
    ensures { Answers result (spec.tested environment.now kind.now (view title.now) body.now) }
{
    let known = check_kind(alloc, environment, kind, &body.at)?;
    title_tested(alloc, known, title, body)
}

fn title_tested(alloc: Global, known: KnownKind, title: &Value, body: &Body) -> Result<Named, Stop>
    ensures { Answers result (spec.title_tested known (view title.now) body.now) }
{
    let title = check_title(alloc, title, &body.at)?;
    check_lines_of(alloc, &known, &title, body.lines.as_slice())?;
    Ok(named_of(known, title))
}

fn check_lines_of(
    alloc: Global,
    known: &KnownKind,
    title: &Text,
    lines: &[Line],
) -> Result<(), Stop>
    ensures { Answers result (spec.lines_checked (spec.reference_to known.now title.now) known.now.known
        (lines_of lines.now)) }
{
    if are_taken(&known.known, lines) {
        return Ok(());
    }
    let what = reference_to(alloc, known, title)?;
    check_lines(alloc, &what, &known.known, lines)
}

fn named_of(known: KnownKind, title: Text) -> Named
    ensures { result ≡ spec.named_of known title }
{
    let KnownKind { kind, known } = known;
    Named { kind, title, known }
}

fn reference_to(alloc: Global, known: &KnownKind, title: &Text) -> Result<Reference, Memory>
    ensures { IfOk result (λ r. r ≡ spec.reference_to known.now title.now) }
{
    let kind = known.kind.copy(alloc)?;
    let title = title.copy(alloc)?;
    Ok(Reference { kind, title })
}

#[tactic(auto, unfolding(crate::specs::Checks::title_checked))]
pub fn check_title(alloc: Global, title: &Value, at: &Place) -> Result<Text, Stop>
    ensures { Answers result (spec.title_checked (view title.now) at.now) }
{
    match title {
        Value::Text(text) => check_filled(alloc, text, at),
        _ => Err(Stop::Fault(no_title(alloc, at)?)),
    }
}

fn check_filled(alloc: Global, text: &Text, at: &Place) -> Result<Text, Stop>
    ensures { Answers result (spec.filled_checked text.now at.now) }
{
    match text.as_str().as_bytes() {
        [] => Err(Stop::Fault(no_title(alloc, at)?)),
        [_, ..] => Ok(text.copy(alloc)?),
    }
}

fn no_title(alloc: Global, at: &Place) -> Result<Fault, Memory>
    ensures { IfOk result (λ f. f ≡ spec.no_title at.now) }
{
    let name = Text::from_str(alloc, "title")?;
    let at = at.copy(alloc)?;
    Fault::new(alloc, at, What::TypeMismatch(name))
}

/// How many lines are compared with one another. Of more the names are kept in a set.
const COMPARED_LINES: usize = 16;

/// Whether a few lines are known to pass their tests, whatever resource they are for: so that nothing has to be made
/// that only a fault tells.
#[tactic(auto, using(crate::proofs::GoodLines::all_taken))]
pub fn are_taken(known: &KnownNames, lines: &[Line]) -> bool
    ensures { IsTrue result → good.AreTaken known.now (lines_of lines.now) }
{
    lines.len() <= COMPARED_LINES && are_known(known, lines) && are_apart(lines)
}

#[tactic(auto, unfolding(crate::specs::GoodLines::are_known))]
fn are_known(known: &KnownNames, lines: &[Line]) -> bool
    ensures { result ≡ good.are_known known.now (lines_of lines.now) }
{
    let mut rest = lines;
    while let Some((line, more)) = rest.split_first() {
        if !is_known(known, &line.name) {
            return false;
        }
        rest = more;
    }
    true
}

#[tactic(auto, unfolding(crate::specs::GoodLines::are_apart))]
fn are_apart(lines: &[Line]) -> bool
    ensures { result ≡ good.are_apart (lines_of lines.now) }
{
    let mut rest = lines;
    while let Some((line, more)) = rest.split_first() {
        if is_named(more, &line.name) {
            return false;
        }
        rest = more;
    }
    true
}

/// Whether one of these lines has this name.
#[tactic(auto, unfolding(crate::specs::GoodLines::is_named))]
fn is_named(lines: &[Line], name: &Text) -> bool
    ensures { result ≡ good.is_named (lines_of lines.now) name.now }
{
    let mut rest = lines;
    while let Some((line, more)) = rest.split_first() {
        if line.name == *name {
            return true;
        }
        rest = more;
    }
    false
}

#[tactic(auto, unfolding(crate::specs::Checks::lines_checked))]
pub fn check_lines(
    alloc: Global,
    what: &Reference,
    known: &KnownNames,
    lines: &[Line],
) -> Result<(), Stop>
    ensures { Answers result (spec.lines_checked what.now known.now (lines_of lines.now)) }
{
    check_names(alloc, what, known, lines)?;
    check_apart(alloc, what, lines)
}

/// F10 at the first line whose name the resource does not take.
#[tactic(auto, unfolding(crate::specs::Checks::names_known))]
fn check_names(
    alloc: Global,
    what: &Reference,
    known: &KnownNames,
    lines: &[Line],
) -> Result<(), Stop>
    ensures { Answers result (spec.names_known what.now known.now (lines_of lines.now)) }
{
    let mut rest = lines;
    while let Some((line, more)) = rest.split_first() {
        check_known(alloc, what, known, &line.name, &line.at)?;
        rest = more;
    }
    Ok(())
}

/// F10 at the first attribute that the resource does not take. All stand at one place.
#[tactic(auto, unfolding(crate::specs::Checks::settings_known))]
pub fn check_attributes(
    alloc: Global,
    what: &Reference,
    known: &KnownNames,
    at: &Place,
    attributes: &[Attribute],
) -> Result<(), Stop>
    ensures { Answers result (spec.settings_known what.now known.now at.now (settings attributes.now)) }
{
    let mut rest = attributes;
    while let Some((attribute, more)) = rest.split_first() {
        check_known(alloc, what, known, &attribute.name, at)?;
        rest = more;
    }
    Ok(())
}

/// F15 at the first line whose name stands before it.
#[tactic(auto, unfolding(crate::specs::Checks::names_apart))]
fn check_apart(alloc: Global, what: &Reference, lines: &[Line]) -> Result<(), Stop>
    ensures { Answers result (spec.names_apart what.now [] (lines_of lines.now)) }
{
    let mut names = BTreeSet::new(alloc);
    let mut rest = lines;
    while let Some((line, more)) = rest.split_first() {
        if has_name(&names, &line.name) {
            return Err(Stop::Fault(already_set(alloc, what, line)?));
        }
        names.insert(line.name.copy(alloc)?)?;
        rest = more;
    }
    Ok(())
}

fn already_set(alloc: Global, what: &Reference, line: &Line) -> Result<Fault, Memory>
    ensures { IfOk result (λ f. f ≡ spec.already_set what.now (line_of line.now)) }
{
    let at = line.at.copy(alloc)?;
    let name = line.name.copy(alloc)?;
    let subject = Subject::Reference(what.copy(alloc)?);
    Fault::new(alloc, at, What::AlreadySet { subject, name })
}
