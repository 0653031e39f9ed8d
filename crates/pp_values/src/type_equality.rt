//! Whether two data types are the same: in name, and in each argument as given.
ghost use Rattle.std.specs.Prelude.{◌≡◌};
ghost use Rattle.std.specs.Cmp.Lexicographic.{pointwise};
ghost use Rattle.pp_values.specs.PTypes.{sort, sorts, bounds_arguments, type_argument, text_argument, member_arguments, entry_arguments};
ghost use Rattle.pp_values.specs.Sort.{same_type, same_arguments, same_bound, types_arguments, texts_arguments};

use crate::bounds::{Bound, Bounds};
use crate::ptype::{EntryType, MemberType, PType, TypeBox};
use crate::text::Text;
use crate::texts::Texts;

/// Whether two data types have the same name and the same arguments as given, the letters' case included.
#[cycle(same_type)]
pub fn same_type(a: &PType, b: &PType) -> bool
    ensures { result ≡ same_type (sort a.now) (sort b.now) }
{
    match a {
        PType::Any => matches!(b, PType::Any),
        PType::Undef => matches!(b, PType::Undef),
        PType::Default => matches!(b, PType::Default),
        PType::Boolean => matches!(b, PType::Boolean),
        PType::Integer(a) => match b {
            PType::Integer(b) => same_bounds(a, b),
            _ => false,
        },
        PType::Numeric => matches!(b, PType::Numeric),
        PType::String(a) => match b {
            PType::String(b) => same_bounds(a, b),
            _ => false,
        },
        PType::Enum(a) => match b {
            PType::Enum(b) => same_texts(a, b),
            _ => false,
        },
        PType::Scalar => matches!(b, PType::Scalar),
        PType::Data => matches!(b, PType::Data),
        PType::Array(a) => match b {
            PType::Array(b) => same_members(a, b),
            _ => false,
        },
        PType::Hash(a) => match b {
            PType::Hash(b) => same_entries(a, b),
            _ => false,
        },
        PType::Collection => matches!(b, PType::Collection),
        PType::Optional(a) => match b {
            PType::Optional(b) => same_inner(a, b),
            _ => false,
        },
        PType::Variant(a) => match b {
            PType::Variant(b) => same_types(a.as_slice(), b.as_slice()),
            _ => false,
        },
        PType::NotUndef(a) => match b {
            PType::NotUndef(b) => same_inner(a, b),
            _ => false,
        },
        PType::Tuple(a) => match b {
            PType::Tuple(b) => same_types(a.as_slice(), b.as_slice()),
            _ => false,
        },
        PType::KindOf(a) => match b {
            PType::KindOf(b) => same_inner(a, b),
            _ => false,
        },
        PType::CatalogEntry => matches!(b, PType::CatalogEntry),
        PType::Class(a) => match b {
            PType::Class(b) => same_title(a, b),
            _ => false,
        },
        PType::ResourceKind => matches!(b, PType::ResourceKind),
        PType::Resource { kind: k, title: t } => match b {
            PType::Resource { kind, title } => k == kind && same_title(t, title),
            _ => false,
        },
    }
}

fn same_bound(a: &Bound, b: &Bound) -> bool
    ensures { result ≡ same_bound a.now b.now }
{
    match (a, b) {
        (Bound::Default, Bound::Default) => true,
        (Bound::Number(a), Bound::Number(b)) => a == b,
        _ => false,
    }
}

fn same_bounds(a: &Bounds, b: &Bounds) -> bool
    ensures { result ≡ same_arguments (bounds_arguments a.now) (bounds_arguments b.now) }
{
    match (a, b) {
        (Bounds::Omitted, Bounds::Omitted) => true,
        (Bounds::Least(a), Bounds::Least(b)) => same_bound(a, b),
        (Bounds::Both(a, c), Bounds::Both(b, d)) => same_bound(a, b) && same_bound(c, d),
        _ => false,
    }
}

fn same_title(a: &Option<Text>, b: &Option<Text>) -> bool
    ensures { result ≡ same_arguments (text_argument a.now) (text_argument b.now) }
{
    match (a, b) {
        (None, None) => true,
        (Some(a), Some(b)) => a == b,
        _ => false,
    }
}

fn same_texts(a: &Texts, b: &Texts) -> bool
    ensures { result ≡ same_arguments (texts_arguments a.now) (texts_arguments b.now) }
{
    a.as_slice() == b.as_slice()
}

#[cycle(same_type)]
fn same_inner(a: &Option<TypeBox>, b: &Option<TypeBox>) -> bool
    ensures { result ≡ same_arguments (type_argument a.now) (type_argument b.now) }
{
    match (a, b) {
        (None, None) => true,
        (Some(a), Some(b)) => same_type(a.as_type(), b.as_type()),
        _ => false,
    }
}

#[cycle(same_type)]
fn same_members(a: &Option<MemberType>, b: &Option<MemberType>) -> bool
    ensures { result ≡ same_arguments (member_arguments a.now) (member_arguments b.now) }
{
    match (a, b) {
        (None, None) => true,
        (Some(a), Some(b)) => same_type(a.of.as_type(), b.of.as_type())
            && same_bounds(&a.count, &b.count),
        _ => false,
    }
}

#[cycle(same_type)]
fn same_entries(a: &Option<EntryType>, b: &Option<EntryType>) -> bool
    ensures { result ≡ same_arguments (entry_arguments a.now) (entry_arguments b.now) }
{
    match (a, b) {
        (None, None) => true,
        (Some(a), Some(b)) => same_type(a.key.as_type(), b.key.as_type())
            && same_members(&a.value, &b.value),
        _ => false,
    }
}

#[cycle(same_type)]
fn same_types(a: &[PType], b: &[PType]) -> bool
    ensures { result ≡ pointwise same_type (sorts a.now) (sorts b.now) }
{
    for (i, item) in a.iter().enumerate() {
        if i >= b.len() || !same_type(item, &b[i]) {
            return false;
        }
    }
    a.len() == b.len()
}
