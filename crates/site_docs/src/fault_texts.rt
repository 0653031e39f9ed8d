ghost use Rattle.std.specs.Prelude.{◌≡◌, ◌∷◌, [], ◌++◌, map, codes, decimal, string_bytes, IfOk, OnOk};
ghost use Rattle.pp_values.specs.Words.{reference_text};
ghost use Rattle.site_docs.specs.FaultText.{fault_number as number_of, fault_name as name_of, place_text, subject_text};
ghost use Rattle.site_docs.specs.FaultText.{links, cycle_text, details, spaced, in_line, plain_line as plain_line_of};
ghost use Rattle.site_docs.specs.FaultText.{fault_text};

use crate::fault_names::FAULT_NAMES;
use json_documents::ended;
use pp_values::{
    Fault, Memory, Place, Reference, Subject, Text, What, write_kind, write_reference,
};
use std::alloc::Global;

/// The line that tells a fault, as `F14 manifests/site.pp:2 Duplicate Notify[a] manifests/site.pp:1`,
/// with a line feed at its end.
pub fn write_fault(alloc: Global, fault: &Fault) -> Result<Text, Memory>
    ensures { IfOk result (λ t. t ≡ fault_text fault.now ++ 10 ∷ []) }
{
    ended(alloc, fault_text(alloc, fault)?)
}

/// The same without the line feed, as a part of a reply.
#[tactic(auto, unfolding(crate::specs::FaultText::fault_text))]
pub fn fault_text(alloc: Global, fault: &Fault) -> Result<Text, Memory>
    ensures { IfOk result (λ t. t ≡ fault_text fault.now) }
{
    let line = plain_line(alloc, fault)?;
    in_one_line(alloc, line.as_str())
}

// The details may be empty, which shows only once they are written.
#[tactic(auto, unfolding(crate::specs::FaultText::plain_line))]
fn plain_line(alloc: Global, fault: &Fault) -> Result<String, Memory>
    ensures { IfOk result (λ s. string_bytes s ≡ plain_line_of fault.now) }
{
    let mut line = String::new(alloc);
    write_head(&mut line, fault)?;
    let mut rest = String::new(alloc);
    write_details(&mut rest, fault.what.get())?;
    write_spaced(&mut line, rest.as_str())?;
    Ok(line)
}

// `F14 manifests/site.pp:2 Duplicate`
fn write_head(out: &mut String, fault: &Fault) -> Result<(), Memory>
    ensures { OnOk result (string_bytes out.new ≡ string_bytes out.old
        ++ (codes "F"
        ++ (decimal (number_of fault.now.what)
        ++ (codes " " ++ (place_text fault.now.at ++ (codes " " ++ name_of fault.now.what)))))) }
{
    let number = fault_number(fault.what.get());
    write!(out, "F{number} ")?;
    write_place(out, &fault.at)?;
    out.push_str(" ")?;
    out.push_str(fault_name(fault.what.get()))?;
    Ok(())
}

pub(crate) fn write_place(out: &mut String, place: &Place) -> Result<(), Memory>
    ensures { OnOk result (string_bytes out.new ≡ string_bytes out.old ++ place_text place.now) }
{
    out.push_str(place.file.as_str())?;
    let line = place.line;
    write!(out, ":{line}")?;
    Ok(())
}

fn fault_number(what: &What) -> u32
    ensures { result ≡ number_of what.now }
{
    match what {
        What::Syntax => 1,
        What::UnknownVariable(_) => 2,
        What::Reassigned(_) => 3,
        What::UnknownClass(_) => 4,
        What::UnknownType(_) => 5,
        What::UnknownFunction(_) => 6,
        What::WrongArguments(_) => 7,
        What::TypeMismatch(_) => 8,
        What::MissingParameter { .. } => 9,
        What::UnknownParameter { .. } => 10,
        What::BadOperand(_) => 11,
        What::NumberRange(_) => 12,
        What::ZeroDivisor(_) => 13,
        What::Duplicate { .. } => 14,
        What::AlreadySet { .. } => 15,
        What::NoOverrideTarget(_) => 16,
        What::NoRelationTarget(_) => 17,
        What::Cycle(_) => 18,
        What::NoNode(_) => 19,
        What::LookupMissing(_) => 20,
        What::LookupLoop(_) => 21,
        What::MergeMismatch(_) => 22,
        What::BadData(_) => 23,
        What::BadInterpolation(_) => 24,
        What::Failed(_) => 25,
        What::ClassVirtual(_) => 26,
        What::RoundLimit => 27,
        What::ResourceLimit => 28,
        What::DepthLimit => 29,
        What::SameNamevar { .. } => 30,
    }
}

fn fault_name(what: &What) -> &'static str
    ensures { result.now ≡ name_of what.now }
{
    FAULT_NAMES[fault_number(what) as usize - 1]
}

fn write_details(out: &mut String, what: &What) -> Result<(), Memory>
    ensures { OnOk result (string_bytes out.new ≡ string_bytes out.old ++ details what.now) }
{
    match what {
        What::Syntax | What::RoundLimit | What::ResourceLimit | What::DepthLimit => Ok(()),
        What::UnknownVariable(text)
        | What::Reassigned(text)
        | What::UnknownClass(text)
        | What::UnknownType(text)
        | What::UnknownFunction(text)
        | What::WrongArguments(text)
        | What::TypeMismatch(text)
        | What::BadOperand(text)
        | What::NumberRange(text)
        | What::ZeroDivisor(text)
        | What::NoNode(text)
        | What::LookupMissing(text)
        | What::LookupLoop(text)
        | What::MergeMismatch(text)
        | What::BadData(text)
        | What::BadInterpolation(text)
        | What::Failed(text) => write_text(out, text),
        What::MissingParameter { reference, name } | What::UnknownParameter { reference, name } =>
            write_parameter(out, reference, name),
        What::NoOverrideTarget(reference) | What::NoRelationTarget(reference) => {
            write_reference(out, reference)
        }
        What::Duplicate { reference, earlier } => write_duplicate(out, reference, earlier),
        What::AlreadySet { subject, name } => write_already_set(out, subject, name),
        What::Cycle(references) => write_cycle(out, references.as_slice()),
        What::ClassVirtual(subject) => write_subject(out, subject),
        What::SameNamevar { later, earlier } => write_two(out, later, earlier),
    }
}

fn write_text(out: &mut String, text: &Text) -> Result<(), Memory>
    ensures { OnOk result (string_bytes out.new ≡ string_bytes out.old ++ text.now) }
{
    out.push_str(text.as_str())?;
    Ok(())
}

fn write_parameter(out: &mut String, reference: &Reference, name: &Text) -> Result<(), Memory>
    ensures { OnOk result (string_bytes out.new ≡ string_bytes out.old ++
        (reference_text reference.now ++ (codes " " ++ name.now))) }
{
    write_reference(out, reference)?;
    out.push_str(" ")?;
    write_text(out, name)
}

fn write_duplicate(out: &mut String, reference: &Reference, earlier: &Place) -> Result<(), Memory>
    ensures { OnOk result (string_bytes out.new ≡ string_bytes out.old ++
        (reference_text reference.now ++ (codes " " ++ place_text earlier.now))) }
{
    write_reference(out, reference)?;
    out.push_str(" ")?;
    write_place(out, earlier)
}

fn write_already_set(out: &mut String, about: &Subject, name: &Text) -> Result<(), Memory>
    ensures { OnOk result (string_bytes out.new ≡ string_bytes out.old ++
        (subject_text about.now ++ (codes " " ++ name.now))) }
{
    write_subject(out, about)?;
    out.push_str(" ")?;
    write_text(out, name)
}

fn write_two(out: &mut String, later: &Reference, earlier: &Reference) -> Result<(), Memory>
    ensures { OnOk result (string_bytes out.new ≡ string_bytes out.old ++
        (reference_text later.now ++ (codes " " ++ reference_text earlier.now))) }
{
    write_reference(out, later)?;
    out.push_str(" ")?;
    write_reference(out, earlier)
}

fn write_subject(out: &mut String, about: &Subject) -> Result<(), Memory>
    ensures { OnOk result (string_bytes out.new ≡ string_bytes out.old ++ subject_text about.now) }
{
    match about {
        Subject::Reference(reference) => write_reference(out, reference),
        Subject::Kind(kind) => write_kind(out, kind),
    }
}

fn write_cycle(out: &mut String, references: &[Reference]) -> Result<(), Memory>
    ensures { OnOk result (string_bytes out.new ≡ string_bytes out.old ++ cycle_text references.now) }
{
    match references {
        [] => Ok(()),
        [first, others @ ..] => {
            write_reference(out, first)?;
            write_links(out, others)?;
            write_link(out, first)
        }
    }
}

fn write_links(out: &mut String, references: &[Reference]) -> Result<(), Memory>
    ensures { OnOk result (string_bytes out.new ≡ string_bytes out.old ++ links references.now) }
{
    let mut left = references;
    while let [reference, after @ ..] = left {
        write_link(out, reference)?;
        left = after;
    }
    Ok(())
}

fn write_link(out: &mut String, reference: &Reference) -> Result<(), Memory>
    ensures { OnOk result (string_bytes out.new ≡ string_bytes out.old ++
        (codes " -> " ++ reference_text reference.now)) }
{
    out.push_str(" -> ")?;
    write_reference(out, reference)
}

fn write_spaced(out: &mut String, text: &str) -> Result<(), Memory>
    ensures { OnOk result (string_bytes out.new ≡ string_bytes out.old ++ spaced text.now) }
{
    if !text.is_empty() {
        out.push_str(" ")?;
        out.push_str(text)?;
    }
    Ok(())
}

// The text with a space in the place of each line feed.
fn in_one_line(alloc: Global, text: &str) -> Result<Text, Memory>
    ensures { IfOk result (λ t. t ≡ map in_line text.now) }
{
    let mut line = String::new(alloc);
    let mut rest = text;
    while let Some((piece, after)) = rest.split_once('\n') {
        line.push_str(piece)?;
        line.push_str(" ")?;
        rest = after;
    }
    line.push_str(rest)?;
    Ok(Text::new(line))
}
