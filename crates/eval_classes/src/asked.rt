//! The names of classes in arguments.
ghost use Rattle.std.specs.Prelude.{◌≡◌, [], map, IfOk};
ghost use Rattle.eval_classes.specs.Included as spec;
ghost use Rattle.pp_funcs.specs.Lists.{behind};
ghost use Rattle.pp_values.specs.Views.{view};

use crate::flattening::flat_members;
use crate::names::{class_reference, normal_name};
use eval_world::Evaluated;
use pp_values::{Boxed, Memory, Reference, Text, Texts, Value, Values};
use std::alloc::Global;

/// The names of the classes that are asked for, lists flattened; `None` where there is no argument, or where one is
/// neither a text nor a reference to a class.
pub fn names_asked(alloc: Global, arguments: &Values) -> Result<Option<Texts>, Memory>
    ensures { IfOk result (λ o. o ≡ spec.names_asked arguments.now) }
{
    match arguments.as_slice() {
        [] => Ok(None),
        [_, ..] => {
            let found = flat_members(alloc, arguments.as_slice())?;
            names_in(alloc, found.as_slice())
        }
    }
}

#[tactic(auto, unfolding(crate::specs::Included::names_from))]
fn names_in(alloc: Global, values: &[&Value]) -> Result<Option<Texts>, Memory>
    ensures { IfOk result (λ o. o ≡ spec.names_from [] (behind values.now)) }
{
    let mut names = Texts::new(alloc);
    for value in values {
        match name_in(alloc, value)? {
            Some(name) => names.push(name)?,
            None => return Ok(None),
        }
    }
    Ok(Some(names))
}

fn name_in(alloc: Global, value: &Value) -> Result<Option<Text>, Memory>
    ensures { IfOk result (λ o. o ≡ spec.name_in (view value.now)) }
{
    match value {
        Value::Text(name) => Ok(Some(normal_name(alloc, name)?)),
        Value::Ref(reference) => class_in(alloc, reference.get()),
        _ => Ok(None),
    }
}

fn class_in(alloc: Global, reference: &Reference) -> Result<Option<Text>, Memory>
    ensures { IfOk result (λ o. o ≡ spec.class_in reference.now) }
{
    if reference.kind.is("class") {
        return Ok(Some(normal_name(alloc, &reference.title)?));
    }
    Ok(None)
}

/// The list of references to the classes of these names.
pub fn references(alloc: Global, names: &[Text]) -> Result<Evaluated, Memory>
    ensures { IfOk result (λ e. e ≡ spec.references names.now) }
{
    let list = reference_values(alloc, names)?;
    Ok(Evaluated::new(Value::List(list)))
}

fn reference_values(alloc: Global, names: &[Text]) -> Result<Values, Memory>
    ensures { IfOk result (λ l. l ≡ map spec.reference_to names.now) }
{
    let mut list = Values::new(alloc);
    for name in names {
        list.push(Value::Ref(Boxed::new(alloc, class_reference(alloc, name)?)?))?;
    }
    Ok(list)
}
