//! How data types are printed.
ghost use Rattle.std.specs.Prelude.{◌≡◌, ◌++◌, IfOk, OnOk, string_bytes};
ghost use Rattle.pp_values.specs.PTypes.{sort, sorts, bounds_arguments, type_argument, text_argument, member_arguments, entry_arguments};
ghost use Rattle.pp_values.specs.Sort.{texts_arguments, types_arguments};
ghost use Rattle.pp_values.specs.SortText.{type_text, bracketed, more_text, bound_text};

use crate::bounds::{Bound, Bounds};
use crate::memory::Memory;
use crate::printing::{write_kind, write_quoted};
use crate::ptype::{EntryType, MemberType, PType, TypeBox};
use crate::text::Text;

/// Appends a data type: its name, and its arguments as given, in brackets.
#[cycle(write_type)]
pub fn write_type(out: &mut String, ptype: &PType) -> Result<(), Memory>
    ensures { OnOk result (string_bytes out.new ≡ string_bytes out.old ++ type_text (sort ptype.now)) }
{
    match ptype {
        PType::Any => write_name(out, "Any"),
        PType::Undef => write_name(out, "Undef"),
        PType::Default => write_name(out, "Default"),
        PType::Boolean => write_name(out, "Boolean"),
        PType::Integer(bounds) => {
            write_name(out, "Integer")?;
            write_bounds(out, bounds)
        }
        PType::Numeric => write_name(out, "Numeric"),
        PType::String(bounds) => {
            write_name(out, "String")?;
            write_bounds(out, bounds)
        }
        PType::Enum(texts) => {
            write_name(out, "Enum")?;
            write_texts(out, texts.as_slice())
        }
        PType::Scalar => write_name(out, "Scalar"),
        PType::Data => write_name(out, "Data"),
        PType::Array(members) => {
            write_name(out, "Array")?;
            write_members(out, members)
        }
        PType::Hash(entries) => {
            write_name(out, "Hash")?;
            write_entries(out, entries)
        }
        PType::Collection => write_name(out, "Collection"),
        PType::Optional(inner) => {
            write_name(out, "Optional")?;
            write_inner(out, inner)
        }
        PType::Variant(types) => {
            write_name(out, "Variant")?;
            write_types(out, types.as_slice())
        }
        PType::NotUndef(inner) => {
            write_name(out, "NotUndef")?;
            write_inner(out, inner)
        }
        PType::Tuple(types) => {
            write_name(out, "Tuple")?;
            write_types(out, types.as_slice())
        }
        PType::KindOf(inner) => {
            write_name(out, "Type")?;
            write_inner(out, inner)
        }
        PType::CatalogEntry => write_name(out, "CatalogEntry"),
        PType::Class(name) => {
            write_name(out, "Class")?;
            write_title(out, name)
        }
        PType::ResourceKind => write_name(out, "Resource"),
        PType::Resource { kind, title } => {
            write_kind(out, kind)?;
            write_title(out, title)
        }
    }
}

fn write_name(out: &mut String, name: &str) -> Result<(), Memory>
    ensures { OnOk result (string_bytes out.new ≡ string_bytes out.old ++ name.now) }
{
    out.push_str(name)?;
    Ok(())
}

fn write_bound(out: &mut String, bound: &Bound) -> Result<(), Memory>
    ensures { OnOk result (string_bytes out.new ≡ string_bytes out.old ++ bound_text bound.now) }
{
    match bound {
        Bound::Default => out.push_str("default")?,
        Bound::Number(number) => write!(out, "{number}")?,
    }
    Ok(())
}

fn write_bounds(out: &mut String, bounds: &Bounds) -> Result<(), Memory>
    ensures { OnOk result (string_bytes out.new ≡ string_bytes out.old ++ bracketed (bounds_arguments bounds.now)) }
{
    match bounds {
        Bounds::Omitted => Ok(()),
        Bounds::Least(least) => {
            out.push_str("[")?;
            write_bound(out, least)?;
            out.push_str("]")?;
            Ok(())
        }
        Bounds::Both(least, greatest) => {
            out.push_str("[")?;
            write_bound(out, least)?;
            out.push_str(", ")?;
            write_bound(out, greatest)?;
            out.push_str("]")?;
            Ok(())
        }
    }
}

fn write_more_bounds(out: &mut String, bounds: &Bounds) -> Result<(), Memory>
    ensures { OnOk result (string_bytes out.new ≡ string_bytes out.old ++ more_text (bounds_arguments bounds.now)) }
{
    match bounds {
        Bounds::Omitted => Ok(()),
        Bounds::Least(least) => {
            out.push_str(", ")?;
            write_bound(out, least)
        }
        Bounds::Both(least, greatest) => {
            out.push_str(", ")?;
            write_bound(out, least)?;
            out.push_str(", ")?;
            write_bound(out, greatest)
        }
    }
}

fn write_title(out: &mut String, title: &Option<Text>) -> Result<(), Memory>
    ensures { OnOk result (string_bytes out.new ≡ string_bytes out.old ++ bracketed (text_argument title.now)) }
{
    match title {
        None => Ok(()),
        Some(title) => {
            out.push_str("[")?;
            write_quoted(out, title)?;
            out.push_str("]")?;
            Ok(())
        }
    }
}

fn write_texts(out: &mut String, texts: &[Text]) -> Result<(), Memory>
    ensures { OnOk result (string_bytes out.new ≡ string_bytes out.old ++ bracketed (texts_arguments texts.now)) }
{
    match texts {
        [] => Ok(()),
        [first, more @ ..] => {
            out.push_str("[")?;
            write_quoted(out, first)?;
            write_more_texts(out, more)?;
            out.push_str("]")?;
            Ok(())
        }
    }
}

fn write_more_texts(out: &mut String, texts: &[Text]) -> Result<(), Memory>
    ensures { OnOk result (string_bytes out.new ≡ string_bytes out.old ++ more_text (texts_arguments texts.now)) }
{
    for text in texts {
        out.push_str(", ")?;
        write_quoted(out, text)?;
    }
    Ok(())
}

#[cycle(write_type)]
fn write_inner(out: &mut String, inner: &Option<TypeBox>) -> Result<(), Memory>
    ensures { OnOk result (string_bytes out.new ≡ string_bytes out.old ++ bracketed (type_argument inner.now)) }
{
    match inner {
        None => Ok(()),
        Some(inner) => {
            out.push_str("[")?;
            write_type(out, inner.as_type())?;
            out.push_str("]")?;
            Ok(())
        }
    }
}

#[cycle(write_type)]
fn write_members(out: &mut String, members: &Option<MemberType>) -> Result<(), Memory>
    ensures { OnOk result (string_bytes out.new ≡ string_bytes out.old ++ bracketed (member_arguments members.now)) }
{
    match members {
        None => Ok(()),
        Some(members) => {
            out.push_str("[")?;
            write_type(out, members.of.as_type())?;
            write_more_bounds(out, &members.count)?;
            out.push_str("]")?;
            Ok(())
        }
    }
}

#[cycle(write_type)]
fn write_entries(out: &mut String, entries: &Option<EntryType>) -> Result<(), Memory>
    ensures { OnOk result (string_bytes out.new ≡ string_bytes out.old ++ bracketed (entry_arguments entries.now)) }
{
    match entries {
        None => Ok(()),
        Some(entries) => {
            out.push_str("[")?;
            write_type(out, entries.key.as_type())?;
            write_value_type(out, &entries.value)?;
            out.push_str("]")?;
            Ok(())
        }
    }
}

#[cycle(write_type)]
fn write_value_type(out: &mut String, value: &Option<MemberType>) -> Result<(), Memory>
    ensures { OnOk result (string_bytes out.new ≡ string_bytes out.old ++ more_text (member_arguments value.now)) }
{
    match value {
        None => Ok(()),
        Some(value) => {
            out.push_str(", ")?;
            write_type(out, value.of.as_type())?;
            write_more_bounds(out, &value.count)
        }
    }
}

#[cycle(write_type)]
fn write_types(out: &mut String, types: &[PType]) -> Result<(), Memory>
    ensures { OnOk result (string_bytes out.new ≡ string_bytes out.old ++ bracketed (types_arguments (sorts types.now))) }
{
    match types {
        [] => Ok(()),
        [first, more @ ..] => {
            out.push_str("[")?;
            write_type(out, first)?;
            write_more_types(out, more)?;
            out.push_str("]")?;
            Ok(())
        }
    }
}

#[cycle(write_type)]
fn write_more_types(out: &mut String, types: &[PType]) -> Result<(), Memory>
    ensures { OnOk result (string_bytes out.new ≡ string_bytes out.old ++ more_text (types_arguments (sorts types.now))) }
{
    for item in types {
        out.push_str(", ")?;
        write_type(out, item)?;
    }
    Ok(())
}
