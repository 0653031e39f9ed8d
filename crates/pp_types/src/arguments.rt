//! The arguments that types take.
ghost use Rattle.std.specs.Prelude.{◌≡◌, IfOk};
ghost use Rattle.pp_values.specs.PTypes.{sort, member_arguments, entry_arguments, text_argument, type_argument};
ghost use Rattle.pp_values.specs.Views.{view, views};
ghost use Rattle.pp_types.specs.Arguments.{bound_of, given_bounds, in_order, bounds_of, reference_type, type_of, text_of, all_types, all_texts, one_type, members_of_type, entries_of_type, one_text, no_arguments};
ghost use Rattle.pp_values.specs.Sort.{none};
ghost use Rattle.pp_types.specs.Names as names;
ghost use Rattle.pp_types.specs.Refusals.{Gives};

use crate::naming::normal_name;
use crate::range::from_bounds;
use crate::refusal::Halt;
use pp_values::{
    Bound, Bounds, EntryType, MemberType, Memory, PType, Reference, Text, Texts, TypeBox, Types,
    Value, copy_type,
};
use std::alloc::Global;

fn bound_of(value: &Value) -> Option<Bound>
    ensures { result ≡ bound_of (view value.now) }
{
    match value {
        Value::Int(number) => Some(Bound::Number(*number)),
        Value::Default => Some(Bound::Default),
        _ => None,
    }
}

fn given_bounds(args: &[Value]) -> Option<Bounds>
    ensures { result ≡ given_bounds (views args.now) }
{
    match args {
        [] => Some(Bounds::Omitted),
        [least] => Some(Bounds::Least(bound_of(least)?)),
        [least, greatest] => {
            let least = bound_of(least)?;
            let greatest = bound_of(greatest)?;
            Some(Bounds::Both(least, greatest))
        }
        _ => None,
    }
}

fn in_order(lowest: i64, bounds: Bounds) -> Option<Bounds>
    ensures { result ≡ in_order lowest bounds }
{
    let range = from_bounds(lowest, bounds);
    if range.greatest < range.least {
        None
    } else {
        Some(bounds)
    }
}

/// The bounds: none, the least alone, or both. Where the least is left out it is the lowest, and where it is above the
/// greatest, the bounds are refused.
pub fn bounds(lowest: i64, args: &[Value]) -> Result<Bounds, Halt>
    ensures { Gives (λ b. b) result (bounds_of lowest (views args.now)) }
{
    match given_bounds(args) {
        Some(bounds) => match in_order(lowest, bounds) {
            Some(bounds) => Ok(bounds),
            None => Err(Halt::Refused),
        },
        None => Err(Halt::Refused),
    }
}

fn reference_type(alloc: Global, reference: &Reference) -> Result<PType, Memory>
    ensures { IfOk result (λ t. sort t ≡ reference_type reference.now) }
{
    let title = Some(reference.title.copy(alloc)?);
    if reference.kind.is("class") {
        Ok(PType::Class(title))
    } else {
        let kind = reference.kind.copy(alloc)?;
        Ok(PType::Resource { kind, title })
    }
}

/// A type; a reference counts as the type of its kind and title.
fn type_of(alloc: Global, value: &Value) -> Result<PType, Halt>
    ensures { Gives sort result (type_of (view value.now)) }
{
    match value {
        Value::Kind(inner) => Ok(copy_type(alloc, inner.as_type())?),
        Value::Ref(reference) => Ok(reference_type(alloc, reference.get())?),
        _ => Err(Halt::Refused),
    }
}

fn boxed_type(alloc: Global, value: &Value) -> Result<TypeBox, Halt>
    ensures { Gives (λ t. t) result (type_of (view value.now)) }
{
    Ok(TypeBox::new(alloc, type_of(alloc, value)?)?)
}

/// A type, or none.
pub fn one_type(alloc: Global, args: &[Value]) -> Result<Option<TypeBox>, Halt>
    ensures { Gives type_argument result (one_type (views args.now)) }
{
    match args {
        [] => Ok(None),
        [value] => Ok(Some(boxed_type(alloc, value)?)),
        _ => Err(Halt::Refused),
    }
}

/// Any number of types.
pub fn types(alloc: Global, args: &[Value]) -> Result<Types, Halt>
    ensures { Gives (λ l. l) result (all_types (views args.now)) }
{
    let mut types = Types::new(alloc);
    for value in args {
        types.push(type_of(alloc, value)?)?;
    }
    Ok(types)
}

fn text_of(alloc: Global, value: &Value) -> Result<Text, Halt>
    ensures { Gives (λ t. t) result (text_of (view value.now)) }
{
    match value {
        Value::Text(text) => Ok(text.copy(alloc)?),
        _ => Err(Halt::Refused),
    }
}

/// Any number of texts.
pub fn texts(alloc: Global, args: &[Value]) -> Result<Texts, Halt>
    ensures { Gives (λ l. l) result (all_texts (views args.now)) }
{
    let mut texts = Texts::new(alloc);
    for value in args {
        texts.push(text_of(alloc, value)?)?;
    }
    Ok(texts)
}

/// The type of members, and bounds on their count.
pub fn members(alloc: Global, args: &[Value]) -> Result<Option<MemberType>, Halt>
    ensures { Gives member_arguments result (members_of_type (views args.now)) }
{
    match args {
        [] => Ok(None),
        [value, rest @ ..] => {
            let count = bounds(0, rest)?;
            let of = boxed_type(alloc, value)?;
            Ok(Some(MemberType { of, count }))
        }
    }
}

/// The types of keys and values, and bounds on the count of pairs.
pub fn entries(alloc: Global, args: &[Value]) -> Result<Option<EntryType>, Halt>
    ensures { Gives entry_arguments result (entries_of_type (views args.now)) }
{
    match args {
        [] => Ok(None),
        [value, rest @ ..] => {
            let key = boxed_type(alloc, value)?;
            let value = members(alloc, rest)?;
            Ok(Some(EntryType { key, value }))
        }
    }
}

/// A title, or none.
pub fn title(alloc: Global, args: &[Value]) -> Result<Option<Text>, Halt>
    ensures { Gives text_argument result (one_text (λ t. t) (views args.now)) }
{
    match args {
        [] => Ok(None),
        [value] => Ok(Some(text_of(alloc, value)?)),
        _ => Err(Halt::Refused),
    }
}

/// The name of a class, or none.
pub fn class_name(alloc: Global, args: &[Value]) -> Result<Option<Text>, Halt>
    ensures { Gives text_argument result (one_text names.normal_name (views args.now)) }
{
    match args {
        [] => Ok(None),
        [Value::Text(name)] => Ok(Some(normal_name(alloc, name.as_str())?)),
        _ => Err(Halt::Refused),
    }
}

pub fn nothing(args: &[Value]) -> Result<(), Halt>
    ensures { Gives (λ _. none) result (no_arguments (views args.now)) }
{
    if args.is_empty() {
        Ok(())
    } else {
        Err(Halt::Refused)
    }
}
