//! Data types as values.
ghost use Rattle.std.specs.Prelude.{◌≡◌, IfOk, IsTrue, Ok, codes};
ghost use Rattle.pp_ops.specs.Said.{said};
ghost use Rattle.pp_types.specs.Arguments.{made, or_wrong};
ghost use Rattle.pp_types.specs.Names.{is_type_name, name_of};
ghost use Rattle.pp_values.specs.Answers.{Answers, and_then};
ghost use Rattle.pp_values.specs.PTypes.{sort, text_argument};
ghost use Rattle.pp_values.specs.Sort as n;
ghost use Rattle.pp_values.specs.Sort.{of};
ghost use Rattle.pp_values.specs.Views.{view};
ghost use Rattle.pp_values.specs.Words.{kind_text};
ghost use Rattle.expr_eval.specs.Faults.{wrong_arguments};
ghost use Rattle.expr_eval.specs.Heads.{head_name};
ghost use Rattle.expr_eval.specs.TypeValues.{bare_type, type_name, with_arguments, titled, reference_of, as_value, type_accessed};

use crate::faults::{bad_operand, wrong_arguments};
use pp_types::{DataType, Halt, kind_of, title};
use pp_values::{
    Boxed, Fault, Kind, Memory, PType, Place, Reference, Stop, Text, TypeBox, Value, Values,
    kind_text,
};
use std::alloc::Global;

/// A type's name without its arguments.
#[derive(Clone, Copy)]
pub enum Head<'a> {
    Data(DataType),
    Resource(&'a Kind),
}

/// What the name of a type gives in an expression: the type without arguments, to which `combine` gives the arguments
/// by access. No name is refused, and the place is not used but where memory fails.
#[tactic(auto, using(crate::proofs::TypeNames::bare_is, crate::proofs::TypeNames::bare_stops))]
pub fn type_value(alloc: Global, name: &Text, at: &Place) -> Result<Value, Stop>
    requires { IsTrue (is_type_name name.now) }
    ensures { Answers (said result) (Ok (bare_type name.now)) }
{
    let none = Values::new(alloc);
    let made = kind_of(alloc, name, &none, at)?;
    Ok(Value::Kind(TypeBox::new(alloc, made)?))
}

/// Access to a type: the type with these arguments, or a reference.
#[tactic(auto, using(crate::proofs::Back::members_back))]
pub fn accessed(alloc: Global, kind: &PType, arguments: &Value, at: &Place) -> Result<Value, Stop>
    ensures { Answers (said result) (type_accessed (sort kind.now) (view arguments.now) at.now) }
{
    match arguments {
        Value::List(items) => accessed_by(alloc, kind, items, at),
        _ => Err(Stop::Fault(bad_operand(alloc, "[]", at)?)),
    }
}

#[tactic(auto, using(crate::proofs::TypeNames::value_stops))]
fn accessed_by(alloc: Global, kind: &PType, arguments: &Values, at: &Place) -> Result<Value, Stop>
    ensures { Answers (said result) (and_then (with_arguments (sort kind.now) arguments.now at.now)
        (λ t. Ok (as_value t))) }
{
    let made = with_arguments(alloc, kind, arguments, at)?;
    Ok(as_value(alloc, made)?)
}

fn with_arguments(
    alloc: Global,
    kind: &PType,
    arguments: &Values,
    at: &Place,
) -> Result<TypeBox, Stop>
    ensures { Answers result (with_arguments (sort kind.now) arguments.now at.now) }
{
    match head_of(kind) {
        Head::Data(data_type) => data_type_with(alloc, data_type, arguments, at),
        Head::Resource(kind) => resource_with(alloc, kind, arguments, at),
    }
}

#[tactic(auto, using(crate::proofs::TypeNames::is_name, crate::proofs::TypeNames::kind_back))]
fn data_type_with(
    alloc: Global,
    data_type: DataType,
    arguments: &Values,
    at: &Place,
) -> Result<TypeBox, Stop>
    ensures { Answers result (or_wrong (name_of data_type) at.now (made (name_of data_type) arguments.now)) }
{
    let name = Text::from_str(alloc, data_type.name())?;
    let made = kind_of(alloc, &name, arguments, at)?;
    Ok(TypeBox::new(alloc, made)?)
}

fn resource_with(
    alloc: Global,
    kind: &Kind,
    arguments: &Values,
    at: &Place,
) -> Result<TypeBox, Stop>
    ensures { Answers result (or_wrong (n.kind_of_resource kind.now) at.now
        (made (n.kind_of_resource kind.now) arguments.now)) }
{
    match title(alloc, arguments.as_slice()) {
        Ok(title) => Ok(resource_type(alloc, kind, title)?),
        Err(Halt::Memory) => Err(Stop::Memory),
        Err(Halt::Refused) => Err(Stop::Fault(wrong_title(alloc, kind, at)?)),
    }
}

fn resource_type(alloc: Global, kind: &Kind, title: Option<Text>) -> Result<TypeBox, Memory>
    ensures { IfOk result (λ t. t ≡ of (n.kind_of_resource kind.now) (text_argument title)) }
{
    let kind = kind.copy(alloc)?;
    TypeBox::new(alloc, PType::Resource { kind, title })
}

fn wrong_title(alloc: Global, kind: &Kind, at: &Place) -> Result<Fault, Memory>
    ensures { IfOk result (λ f. f ≡ wrong_arguments (kind_text kind.now) at.now) }
{
    let name = kind_text(alloc, kind)?;
    wrong_arguments(alloc, name.as_str(), at)
}

/// The type as a value, which is a reference where it is of a class with a name or of a kind of resource with a title.
fn as_value(alloc: Global, kind: TypeBox) -> Result<Value, Memory>
    ensures { IfOk result (λ v. view v ≡ as_value kind) }
{
    match reference_of(alloc, kind.as_type())? {
        Some(reference) => Ok(Value::Ref(Boxed::new(alloc, reference)?)),
        None => Ok(Value::Kind(kind)),
    }
}

fn reference_of(alloc: Global, kind: &PType) -> Result<Option<Reference>, Memory>
    ensures { IfOk result (λ r. r ≡ reference_of (sort kind.now)) }
{
    match kind {
        PType::Class(Some(name)) => Ok(Some(class_reference(alloc, name)?)),
        PType::Resource {
            kind,
            title: Some(title),
        } => Ok(Some(resource_reference(alloc, kind, title)?)),
        _ => Ok(None),
    }
}

fn class_reference(alloc: Global, name: &Text) -> Result<Reference, Memory>
    ensures { IfOk result (λ r. r ≡ titled (codes "class") name.now) }
{
    let kind = Kind::from_str(alloc, "class")?;
    let title = name.copy(alloc)?;
    Ok(Reference { kind, title })
}

fn resource_reference(alloc: Global, kind: &Kind, title: &Text) -> Result<Reference, Memory>
    ensures { IfOk result (λ r. r ≡ titled kind.now title.now) }
{
    let kind = kind.copy(alloc)?;
    let title = title.copy(alloc)?;
    Ok(Reference { kind, title })
}

fn head_of(kind: &PType) -> Head<'_>
    ensures { head_name result ≡ type_name (sort kind.now) }
{
    match kind {
        PType::Any => Head::Data(DataType::Any),
        PType::Undef => Head::Data(DataType::Undef),
        PType::Default => Head::Data(DataType::Default),
        PType::Boolean => Head::Data(DataType::Boolean),
        PType::Integer(_) => Head::Data(DataType::Integer),
        PType::Numeric => Head::Data(DataType::Numeric),
        PType::String(_) => Head::Data(DataType::String),
        PType::Enum(_) => Head::Data(DataType::Enum),
        PType::Scalar => Head::Data(DataType::Scalar),
        PType::Data => Head::Data(DataType::Data),
        PType::Array(_) => Head::Data(DataType::Array),
        PType::Hash(_) => Head::Data(DataType::Hash),
        PType::Collection => Head::Data(DataType::Collection),
        PType::Optional(_) => Head::Data(DataType::Optional),
        PType::Variant(_) => Head::Data(DataType::Variant),
        PType::NotUndef(_) => Head::Data(DataType::NotUndef),
        PType::Tuple(_) => Head::Data(DataType::Tuple),
        PType::KindOf(_) => Head::Data(DataType::Type),
        PType::CatalogEntry => Head::Data(DataType::CatalogEntry),
        PType::Class(_) => Head::Data(DataType::Class),
        PType::ResourceKind => Head::Data(DataType::Resource),
        PType::Resource { kind, .. } => Head::Resource(kind),
    }
}
