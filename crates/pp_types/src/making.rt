//! The type that a name with arguments is.
ghost use Rattle.std.specs.Prelude.{◌≡◌, IfOk, IsTrue};
ghost use Rattle.pp_values.specs.Answers.{Answers};
ghost use Rattle.pp_values.specs.Faults.{fault};
ghost use Rattle.pp_values.specs.PTypes.{sort};
ghost use Rattle.pp_values.specs.Sort as n;
ghost use Rattle.pp_values.specs.Views.{views};
ghost use Rattle.pp_values.specs.Words.{kind_text};
ghost use Rattle.pp_types.specs.Arguments.{kind_of, made, or_wrong};
ghost use Rattle.pp_types.specs.Names.{is_type_name, name_of, normal_name};
ghost use Rattle.pp_types.specs.Refusals.{Gives, said};

use crate::arguments::{
    bounds, class_name, entries, members, nothing, one_type, texts, title, types,
};
use crate::data_type::{DataType, data_type_named};
use crate::naming::{bare_name, named_kind};
use crate::refusal::Halt;
use pp_values::{Fault, Kind, Memory, PType, Place, Stop, Text, Value, Values, What, kind_text};
use std::alloc::Global;

/// The type of this name with these arguments, or the fault at this place that the arguments are wrong, which names the
/// type. A name that is none of the data types is a kind of resource.
pub fn kind_of(alloc: Global, name: &Text, args: &Values, at: &Place) -> Result<PType, Stop>
    requires { IsTrue (is_type_name name.now) }
    ensures { Answers (said result) (kind_of name.now args.now at.now) }
{
    match data_type_named(bare_name(name.as_str())) {
        Some(data_type) => data_type_of(alloc, data_type, args.as_slice(), at),
        None => resource_type_of(alloc, name.as_str(), args.as_slice(), at),
    }
}

fn data_type_of(
    alloc: Global,
    data_type: DataType,
    args: &[Value],
    at: &Place,
) -> Result<PType, Stop>
    ensures { Answers (said result) (or_wrong (name_of data_type) at.now
        (made (name_of data_type) (views args.now))) }
{
    match made(alloc, data_type, args) {
        Ok(ptype) => Ok(ptype),
        Err(Halt::Memory) => Err(Stop::Memory),
        Err(Halt::Refused) => {
            let name = Text::from_str(alloc, data_type.name())?;
            Err(Stop::Fault(wrong_arguments(alloc, name, at)?))
        }
    }
}

fn resource_type_of(alloc: Global, name: &str, args: &[Value], at: &Place) -> Result<PType, Stop>
    requires { IsTrue (is_type_name name.now) }
    ensures { Answers (said result) (or_wrong (n.kind_of_resource (normal_name name.now)) at.now
        (made (n.kind_of_resource (normal_name name.now)) (views args.now))) }
{
    let kind = named_kind(alloc, name)?;
    match title(alloc, args) {
        Ok(title) => Ok(PType::Resource { kind, title }),
        Err(Halt::Memory) => Err(Stop::Memory),
        Err(Halt::Refused) => Err(Stop::Fault(wrong_title(alloc, &kind, at)?)),
    }
}

fn wrong_title(alloc: Global, kind: &Kind, at: &Place) -> Result<Fault, Memory>
    ensures { IfOk result (λ f. f ≡ fault at.now (What.WrongArguments (kind_text kind.now))) }
{
    let name = kind_text(alloc, kind)?;
    wrong_arguments(alloc, name, at)
}

fn wrong_arguments(alloc: Global, name: Text, at: &Place) -> Result<Fault, Memory>
    ensures { IfOk result (λ f. f ≡ fault at.now (What.WrongArguments name)) }
{
    let at = at.copy(alloc)?;
    Fault::new(alloc, at, What::WrongArguments(name))
}

fn made(alloc: Global, data_type: DataType, args: &[Value]) -> Result<PType, Halt>
    ensures { Gives sort result (made (name_of data_type) (views args.now)) }
{
    match data_type {
        DataType::Integer => Ok(PType::Integer(bounds(i64::MIN, args)?)),
        DataType::String => Ok(PType::String(bounds(0, args)?)),
        DataType::Enum => Ok(PType::Enum(texts(alloc, args)?)),
        DataType::Array => Ok(PType::Array(members(alloc, args)?)),
        DataType::Hash => Ok(PType::Hash(entries(alloc, args)?)),
        DataType::Optional => Ok(PType::Optional(one_type(alloc, args)?)),
        DataType::Variant => Ok(PType::Variant(types(alloc, args)?)),
        DataType::NotUndef => Ok(PType::NotUndef(one_type(alloc, args)?)),
        DataType::Tuple => Ok(PType::Tuple(types(alloc, args)?)),
        DataType::Type => Ok(PType::KindOf(one_type(alloc, args)?)),
        DataType::Class => Ok(PType::Class(class_name(alloc, args)?)),
        DataType::Any => {
            nothing(args)?;
            Ok(PType::Any)
        }
        DataType::Undef => {
            nothing(args)?;
            Ok(PType::Undef)
        }
        DataType::Default => {
            nothing(args)?;
            Ok(PType::Default)
        }
        DataType::Boolean => {
            nothing(args)?;
            Ok(PType::Boolean)
        }
        DataType::Numeric => {
            nothing(args)?;
            Ok(PType::Numeric)
        }
        DataType::Scalar => {
            nothing(args)?;
            Ok(PType::Scalar)
        }
        DataType::Data => {
            nothing(args)?;
            Ok(PType::Data)
        }
        DataType::Collection => {
            nothing(args)?;
            Ok(PType::Collection)
        }
        DataType::CatalogEntry => {
            nothing(args)?;
            Ok(PType::CatalogEntry)
        }
        DataType::Resource => {
            nothing(args)?;
            Ok(PType::ResourceKind)
        }
    }
}
