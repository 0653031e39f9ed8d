//! Copies of data types.
ghost use Rattle.std.specs.Prelude.{◌≡◌, IfOk};
ghost use Rattle.pp_values.specs.PTypes.{sort};

use crate::kind::Kind;
use crate::memory::Memory;
use crate::ptype::{EntryType, MemberType, PType, TypeBox};
use crate::text::Text;
use crate::texts::copy_texts;
use crate::types::Types;
use std::alloc::Global;

/// A data type that says the same.
#[cycle(copy_type)]
pub fn copy_type(alloc: Global, ptype: &PType) -> Result<PType, Memory>
    ensures { IfOk result (λ t. sort t ≡ sort ptype.now) }
{
    match ptype {
        PType::Any => Ok(PType::Any),
        PType::Undef => Ok(PType::Undef),
        PType::Default => Ok(PType::Default),
        PType::Boolean => Ok(PType::Boolean),
        PType::Integer(bounds) => Ok(PType::Integer(*bounds)),
        PType::Numeric => Ok(PType::Numeric),
        PType::String(bounds) => Ok(PType::String(*bounds)),
        PType::Enum(texts) => Ok(PType::Enum(copy_texts(alloc, texts)?)),
        PType::Scalar => Ok(PType::Scalar),
        PType::Data => Ok(PType::Data),
        PType::Array(members) => Ok(PType::Array(copy_members(alloc, members)?)),
        PType::Hash(entries) => Ok(PType::Hash(copy_entries(alloc, entries)?)),
        PType::Collection => Ok(PType::Collection),
        PType::Optional(inner) => Ok(PType::Optional(copy_inner(alloc, inner)?)),
        PType::Variant(types) => Ok(PType::Variant(copy_types(alloc, types)?)),
        PType::NotUndef(inner) => Ok(PType::NotUndef(copy_inner(alloc, inner)?)),
        PType::Tuple(types) => Ok(PType::Tuple(copy_types(alloc, types)?)),
        PType::KindOf(inner) => Ok(PType::KindOf(copy_inner(alloc, inner)?)),
        PType::CatalogEntry => Ok(PType::CatalogEntry),
        PType::Class(name) => Ok(PType::Class(copy_title(alloc, name)?)),
        PType::ResourceKind => Ok(PType::ResourceKind),
        PType::Resource { kind, title } => copy_resource_type(alloc, kind, title),
    }
}

/// A list of data types that say the same.
#[cycle(copy_type)]
pub fn copy_types(alloc: Global, types: &Types) -> Result<Types, Memory>
    ensures { IfOk result (λ l. l ≡ types.now) }
{
    let mut copies = Types::new(alloc);
    for item in types.as_slice() {
        copies.push(copy_type(alloc, item)?)?;
    }
    Ok(copies)
}

/// A data type that says the same.
pub fn copy_type_box(alloc: Global, inner: &TypeBox) -> Result<TypeBox, Memory>
    ensures { IfOk result (λ t. t ≡ inner.now) }
{
    TypeBox::new(alloc, copy_type(alloc, inner.as_type())?)
}

#[cycle(copy_type)]
fn copy_inner(alloc: Global, inner: &Option<TypeBox>) -> Result<Option<TypeBox>, Memory>
    ensures { IfOk result (λ t. t ≡ inner.now) }
{
    match inner {
        None => Ok(None),
        Some(inner) => Ok(Some(TypeBox::new(alloc, copy_type(alloc, inner.as_type())?)?)),
    }
}

#[cycle(copy_type)]
fn copy_members(alloc: Global, members: &Option<MemberType>) -> Result<Option<MemberType>, Memory>
    ensures { IfOk result (λ m. m ≡ members.now) }
{
    match members {
        None => Ok(None),
        Some(members) => Ok(Some(MemberType {
            of: TypeBox::new(alloc, copy_type(alloc, members.of.as_type())?)?,
            count: members.count,
        })),
    }
}

#[cycle(copy_type)]
fn copy_entries(alloc: Global, entries: &Option<EntryType>) -> Result<Option<EntryType>, Memory>
    ensures { IfOk result (λ e. e ≡ entries.now) }
{
    match entries {
        None => Ok(None),
        Some(entries) => {
            let key = TypeBox::new(alloc, copy_type(alloc, entries.key.as_type())?)?;
            let value = copy_members(alloc, &entries.value)?;
            Ok(Some(EntryType { key, value }))
        }
    }
}

fn copy_title(alloc: Global, title: &Option<Text>) -> Result<Option<Text>, Memory>
    ensures { IfOk result (λ t. t ≡ title.now) }
{
    match title {
        None => Ok(None),
        Some(title) => Ok(Some(title.copy(alloc)?)),
    }
}

fn copy_resource_type(alloc: Global, kind: &Kind, title: &Option<Text>) -> Result<PType, Memory>
    ensures { IfOk result (λ t. t ≡ PType.Resource kind.now title.now) }
{
    let title = copy_title(alloc, title)?;
    let kind = kind.copy(alloc)?;
    Ok(PType::Resource { kind, title })
}
