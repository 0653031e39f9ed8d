//! The resources that relations name.
ghost use Rattle.std.specs.Prelude.{◌≡◌, ◌∷◌, [], ◌++◌, Ok, IfOk, option_and_then};
ghost use Rattle.pp_values.specs.Answers.{Answers, and_then};
ghost use Rattle.pp_values.specs.Datum.{data_of};
ghost use Rattle.pp_values.specs.Faults.{fault};
ghost use Rattle.pp_values.specs.Views.{view, views};
ghost use Rattle.pp_values.specs.declared.fault.What.TheVariants.{NoRelationTarget, TypeMismatch};
ghost use Rattle.res_book.specs.Rows.{number_of};
ghost use Rattle.catalog_finish.specs.Layouts.{index_at};
ghost use Rattle.catalog_finish.specs.Sources.{sources_of};
ghost use Rattle.catalog_finish.specs.Relating.{target as target_meant, targets as targets_meant};
ghost use Rattle.catalog_finish.specs.Relating.{each_target as each_meant};

use crate::tables::Tables;
use pp_values::{Fault, Memory, Place, Reference, Stop, Text, Value, What};
use res_core::Indexes;
use std::alloc::Global;

fn no_target(alloc: Global, at: &Place, target: &Reference) -> Result<Fault, Memory>
    ensures { IfOk result (λ f. f ≡ fault at.now (NoRelationTarget target.now)) }
{
    let at = at.copy(alloc)?;
    let target = target.copy(alloc)?;
    Fault::new(alloc, at, What::NoRelationTarget(target))
}

/// A value outside the type of the attribute of this name.
pub fn mismatch(alloc: Global, at: &Place, name: &Text) -> Result<Fault, Memory>
    ensures { IfOk result (λ f. f ≡ fault at.now (TypeMismatch name.now)) }
{
    let at = at.copy(alloc)?;
    let name = name.copy(alloc)?;
    Fault::new(alloc, at, What::TypeMismatch(name))
}

fn index_of(tables: &Tables<'_>, reference: &Reference) -> Option<u32>
    ensures { result
        ≡ option_and_then (index_at tables.now.layout.now.indexes) (number_of reference.now tables.now.book.now) }
{
    match tables.book.find(reference) {
        Some(number) => tables.layout.index(number),
        None => None,
    }
}

/// The index of the live resource of this reference, which a relation at this place names.
pub fn target(
    alloc: Global,
    tables: &Tables<'_>,
    at: &Place,
    reference: &Reference,
) -> Result<u32, Stop>
    ensures { Answers result (target_meant (sources_of tables.now) at.now reference.now) }
{
    match index_of(tables, reference) {
        Some(index) => Ok(index),
        None => Err(Stop::Fault(no_target(alloc, at, reference)?)),
    }
}

/// Puts the indexes of what the value of a metaparameter names behind the others.
#[cycle(targets)]
pub fn targets(
    alloc: Global,
    tables: &Tables<'_>,
    at: &Place,
    name: &Text,
    value: &Value,
    found: Indexes,
) -> Result<Indexes, Stop>
    ensures { Answers result (targets_meant (sources_of tables.now) at.now name.now found (view value.now)) }
{
    match value {
        Value::Ref(reference) => with_target(alloc, tables, at, reference.get(), found),
        Value::List(items) => each_target(alloc, tables, at, name, items.as_slice(), found),
        _ => Err(Stop::Fault(mismatch(alloc, at, name)?)),
    }
}

fn with_target(
    alloc: Global,
    tables: &Tables<'_>,
    at: &Place,
    reference: &Reference,
    found: Indexes,
) -> Result<Indexes, Stop>
    ensures { Answers result
        (and_then (target_meant (sources_of tables.now) at.now reference.now) (λ i. Ok (found ++ i ∷ []))) }
{
    let index = target(alloc, tables, at, reference)?;
    let mut found = found;
    found.push(index)?;
    Ok(found)
}

#[cycle(targets)]
fn each_target(
    alloc: Global,
    tables: &Tables<'_>,
    at: &Place,
    name: &Text,
    items: &[Value],
    found: Indexes,
) -> Result<Indexes, Stop>
    ensures { Answers result
        (each_meant (sources_of tables.now) at.now name.now found (data_of (views items.now))) }
{
    let mut found = found;
    for item in items {
        found = targets(alloc, tables, at, name, item, found)?;
    }
    Ok(found)
}
