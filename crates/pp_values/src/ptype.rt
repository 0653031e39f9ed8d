ghost use Rattle.std.specs.Prelude.{◌≡◌, IfOk};

use crate::bounds::Bounds;
use crate::kind::Kind;
use crate::memory::Memory;
use crate::nesting::{depth_around, depth_of_arguments};
use crate::text::Text;
use crate::texts::Texts;
use crate::types::Types;
use std::alloc::Global;
use std::marker::Model;

/// A data type as it was written: what was left out is told from what was given.
///
/// See "Data types" in Puppet's language reference.
#[cycle(ptype)]
#[derive(Drop)]
pub enum PType {
    Any,
    Undef,
    Default,
    Boolean,
    Integer(Bounds),
    Numeric,
    /// The bounds count characters.
    String(Bounds),
    Enum(Texts),
    Scalar,
    Data,
    Array(Option<MemberType>),
    Hash(Option<EntryType>),
    Collection,
    Optional(Option<TypeBox>),
    Variant(Types),
    NotUndef(Option<TypeBox>),
    Tuple(Types),
    /// `Type`, of a data type or bare.
    KindOf(Option<TypeBox>),
    CatalogEntry,
    /// `Class`, of a name or bare.
    Class(Option<Text>),
    /// `Resource`: all kinds of resource.
    ResourceKind,
    /// A kind of resource, of a title or bare.
    Resource { kind: Kind, title: Option<Text> },
}

/// The type of members and the bounds on their count: `T, min, max` in `Array[T, min, max]`.
#[cycle(ptype)]
#[derive(Drop)]
pub struct MemberType {
    pub of: TypeBox,
    pub count: Bounds,
}

/// The type of keys, and that of values where it is given: `K, V, min, max` in `Hash[K, V, min, max]`.
#[cycle(ptype)]
#[derive(Drop)]
pub struct EntryType {
    pub key: TypeBox,
    pub value: Option<MemberType>,
}

/// A data type within another one. A contract sees what the type says.
#[cycle(ptype)]
#[derive(Drop)]
pub struct TypeBox {
    inner: Box<PType>,
    /// How deep the type nests, itself included.
    depth: u32,
}

impl Model for TypeBox {
    ghost use Rattle.pp_values.specs.Sort.{Sort, sort_size};
    ghost use Rattle.pp_values.specs.SortCodes.{coded_sort};

    ghost Value = { Sort };

    ghost coded = { coded_sort };

    ghost use Rattle.pp_values.specs.Depth.{IsDepth, sort_depth};
    ghost use Rattle.pp_values.specs.PTypes.{sort};

    ghost view = { λ b. sort b.inner.value };

    ghost invariant = { λ b. IsDepth b.depth (sort_depth (sort b.inner.value)) };

    ghost size = { sort_size };

    ghost use Rattle.std.proofs.Common.{arith};
    ghost use Rattle.pp_values.specs.SortFalls.{deep_le-sort_size};

    ghost size_decreases = { λ b h. omega (arith, deep_le-sort_size b.inner.value) };
}

impl TypeBox {
    ghost use Rattle.pp_values.specs.Depth.{IsDepth, sort_depth};
    ghost use Rattle.pp_values.specs.PTypes.{sort};

    /// A data type behind a pointer. Where it would nest deeper than [`MAX_NESTING`](crate::MAX_NESTING), that is want of
    /// memory.
    pub fn new(alloc: Global, inner: PType) -> Result<TypeBox, Memory>
        ensures { IfOk result (λ b. b ≡ sort inner) }
    {
        let depth = depth_around(depth_of_arguments(&inner))?;
        Ok(TypeBox {
            inner: Box::new(alloc, inner)?,
            depth,
        })
    }

    /// How deep the type nests, itself included.
    pub(crate) fn depth(&self) -> u32
        ensures { IsDepth result (sort_depth self.now) }
    {
        self.depth
    }

    pub fn as_type(&self) -> &PType
        ensures { sort result.now ≡ self.now }
    {
        &self.inner
    }
}
