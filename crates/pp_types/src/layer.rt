//! What a data type counts as, one layer of it.
ghost use Rattle.std.specs.Prelude.{◌≡◌, option_map};
ghost use Rattle.pp_values.specs.PTypes.{sort, type_argument, member_arguments, entry_arguments, text_argument};
ghost use Rattle.pp_values.specs.Sort.{types_arguments};
ghost use Rattle.pp_types.specs.Forms.{form, first_form, second_form, enum_form, tuple_form, given_forms, kind_form, reference_form, counts, behind};
ghost use Rattle.pp_types.specs.Layers.{seen_form, layer_form};
ghost use Rattle.pp_types.specs.Forms as f;

use crate::range::Range;
use crate::seen::Seen;
use pp_values::{EntryType, Kind, MemberType, PType, Text, Texts, TypeBox, Types};

/// What a data type counts as: its outermost form, with what was left out filled in.
#[derive(Clone, Copy)]
pub enum Layer<'a> {
    Any,
    Undef,
    Default,
    Boolean,
    Integer(Range),
    String(Range),
    Enum(&'a Texts),
    Data,
    Array(Seen<'a>, Range),
    Hash(Seen<'a>, Seen<'a>, Range),
    Variant(Choices<'a>),
    NotUndef(Seen<'a>),
    Tuple(&'a Types),
    KindOf(Seen<'a>),
    CatalogEntry,
    Class(Option<&'a Text>),
    ResourceKind,
    Resource(&'a Kind, Option<&'a Text>),
}

/// The types of a `Variant` or a `Tuple`, given or made.
#[derive(Clone, Copy)]
pub enum Choices<'a> {
    Given(&'a Types),
    OrUndef(Seen<'a>),
    Scalar,
    Collection,
}

pub fn layer_of<'a>(seen: Seen<'a>) -> Layer<'a>
    ensures { layer_form result ≡ seen_form seen.entry }
{
    match seen {
        Seen::Given(ptype) => given_layer(ptype),
        Seen::OrUndef(inner) => Layer::Variant(Choices::OrUndef(*inner)),
        Seen::Reference(reference) => kind_layer(&reference.kind, Some(&reference.title)),
        Seen::Any => Layer::Any,
        Seen::Undef => Layer::Undef,
        Seen::Boolean => Layer::Boolean,
        Seen::Integer => Layer::Integer(Range::INTEGERS),
        Seen::String => Layer::String(Range::COUNTS),
        Seen::Array => Layer::Array(Seen::Any, Range::COUNTS),
        Seen::Hash => Layer::Hash(Seen::Any, Seen::Any, Range::COUNTS),
        Seen::Data => Layer::Data,
    }
}

fn given_layer<'a>(ptype: &'a PType) -> Layer<'a>
    ensures { layer_form result ≡ form (sort ptype.now) }
{
    match ptype {
        PType::Any => Layer::Any,
        PType::Undef => Layer::Undef,
        PType::Default => Layer::Default,
        PType::Boolean => Layer::Boolean,
        PType::Integer(bounds) => Layer::Integer(Range::of_integers(*bounds)),
        PType::Numeric => Layer::Integer(Range::INTEGERS),
        PType::String(bounds) => Layer::String(Range::of_counts(*bounds)),
        PType::Enum(texts) => enum_layer(texts),
        PType::Scalar => Layer::Variant(Choices::Scalar),
        PType::Data => Layer::Data,
        PType::Array(members) => array_layer(members),
        PType::Hash(entries) => hash_layer(entries),
        PType::Collection => Layer::Variant(Choices::Collection),
        PType::Optional(inner) => Layer::Variant(Choices::OrUndef(type_or_any(inner))),
        PType::Variant(types) => Layer::Variant(Choices::Given(types)),
        PType::NotUndef(inner) => Layer::NotUndef(type_or_any(inner)),
        PType::Tuple(types) => tuple_layer(types),
        PType::KindOf(inner) => Layer::KindOf(type_or_any(inner)),
        PType::CatalogEntry => Layer::CatalogEntry,
        PType::Class(name) => Layer::Class(name.as_ref()),
        PType::ResourceKind => Layer::ResourceKind,
        PType::Resource { kind, title } => kind_layer(kind, title.as_ref()),
    }
}

fn type_or_any<'a>(inner: &'a Option<TypeBox>) -> Seen<'a>
    ensures { seen_form result ≡ first_form (type_argument inner.now) }
{
    match inner {
        Some(inner) => Seen::Given(inner.as_type()),
        None => Seen::Any,
    }
}

/// A bare `Enum` counts as `String`.
fn enum_layer<'a>(texts: &'a Texts) -> Layer<'a>
    ensures { layer_form result ≡ enum_form texts.now }
{
    if texts.is_empty() {
        Layer::String(Range::COUNTS)
    } else {
        Layer::Enum(texts)
    }
}

/// A bare `Tuple` counts as `Array`.
fn tuple_layer<'a>(types: &'a Types) -> Layer<'a>
    ensures { layer_form result ≡ tuple_form (given_forms (types_arguments types.now)) }
{
    if types.is_empty() {
        Layer::Array(Seen::Any, Range::COUNTS)
    } else {
        Layer::Tuple(types)
    }
}

fn array_layer<'a>(members: &'a Option<MemberType>) -> Layer<'a>
    ensures { layer_form result
        ≡ f.array (first_form (member_arguments members.now)) (counts (behind (member_arguments members.now))) }
{
    match members {
        Some(members) => Layer::Array(
            Seen::Given(members.of.as_type()),
            Range::of_counts(members.count),
        ),
        None => Layer::Array(Seen::Any, Range::COUNTS),
    }
}

fn hash_layer<'a>(entries: &'a Option<EntryType>) -> Layer<'a>
    ensures { layer_form result
        ≡ f.hash (first_form (entry_arguments entries.now)) (second_form (entry_arguments entries.now))
        (counts (behind (behind (entry_arguments entries.now)))) }
{
    match entries {
        Some(entries) => keyed_layer(entries.key.as_type(), &entries.value),
        None => Layer::Hash(Seen::Any, Seen::Any, Range::COUNTS),
    }
}

fn keyed_layer<'a>(key: &'a PType, value: &'a Option<MemberType>) -> Layer<'a>
    ensures { layer_form result
        ≡ f.hash (form (sort key.now)) (first_form (member_arguments value.now))
        (counts (behind (member_arguments value.now))) }
{
    match value {
        Some(value) => Layer::Hash(
            Seen::Given(key),
            Seen::Given(value.of.as_type()),
            Range::of_counts(value.count),
        ),
        None => Layer::Hash(Seen::Given(key), Seen::Any, Range::COUNTS),
    }
}

/// A kind of resource with its title, or bare. The kind `class` is that of classes.
fn kind_layer<'a>(kind: &'a Kind, title: Option<&'a Text>) -> Layer<'a>
    ensures { layer_form result ≡ kind_form kind.now (option_map (λ t. t.now) title.entry) }
{
    if kind.is("class") {
        Layer::Class(title)
    } else {
        Layer::Resource(kind, title)
    }
}
