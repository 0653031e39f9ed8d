//! Where definitions are found by their names.
ghost use Rattle.std.specs.Prelude.{◌≡◌, IfOk, option_map, is_some};
ghost use Rattle.std.specs.Option.{option_copied};
ghost use Rattle.eval_classes.specs.Answers.{Lends};
ghost use Rattle.eval_classes.specs.Definitions as spec;
ghost use Rattle.pp_values.specs.Faults.{fault};
ghost use Rattle.pp_values.specs.declared.fault.What.TheVariants as what;

use crate::found::Found;
use crate::paths::module_path;
use eval_world::Environment;
use pp_tree::{Class, Define, Definition, DefinitionName, File, ManifestFile};
use pp_values::{Fault, MAIN_MANIFEST, Memory, Place, Stop, Text, What};
use std::alloc::Global;

/// What stands under the name of a class or define, which is in lower case without a leading `::`.
#[tactic(auto, unfolding(crate::specs::Definitions::definition_of))]
pub fn find<'a>(
    alloc: Global,
    environment: &Environment<'a>,
    name: &Text,
) -> Result<Found<'a>, Memory>
    ensures { IfOk result (λ f. spec.told f ≡ spec.definition_of environment.now name.now) }
{
    match defined_in(alloc, environment.main(), name)? {
        Some(definition) => Ok(Found::Definition(definition)),
        None => find_in_module(alloc, environment, name),
    }
}

/// What stands under a name, and the path of the file that it stands in. The path is written once for both.
#[tactic(auto, unfolding(crate::specs::Definitions::definition_of))]
pub fn find_with_file<'a>(
    alloc: Global,
    environment: &Environment<'a>,
    name: &Text,
) -> Result<(Found<'a>, Text), Memory>
    ensures found { IfOk result (λ r. spec.told r.0 ≡ spec.definition_of environment.now name.now) }
    ensures file { IfOk result (λ r. r.1 ≡ spec.file_of environment.now name.now) }
{
    match defined_in(alloc, environment.main(), name)? {
        Some(definition) => {
            let file = Text::from_str(alloc, MAIN_MANIFEST)?;
            Ok((Found::Definition(definition), file))
        }
        None => {
            let path = module_path(alloc, name)?;
            let found = find_at(alloc, environment, &path, name)?;
            Ok((found, path))
        }
    }
}

/// What a file defines under a name.
pub fn defined_in<'a>(
    alloc: Global,
    file: &'a File,
    name: &Text,
) -> Result<Option<&'a Definition>, Memory>
    ensures { IfOk result (λ o. option_copied o ≡ spec.defined_in name.now file.now) }
{
    let name = DefinitionName::Code(name.copy(alloc)?);
    Ok(file.definitions.get(&name))
}

fn find_in_module<'a>(
    alloc: Global,
    environment: &Environment<'a>,
    name: &Text,
) -> Result<Found<'a>, Memory>
    ensures { IfOk result (λ f. spec.told f ≡ spec.found_in_module environment.now name.now) }
{
    let path = module_path(alloc, name)?;
    find_at(alloc, environment, &path, name)
}

/// What the file at a path has under a name.
fn find_at<'a>(
    alloc: Global,
    environment: &Environment<'a>,
    path: &Text,
    name: &Text,
) -> Result<Found<'a>, Memory>
    ensures { IfOk result (λ f. spec.told f ≡ spec.in_module name.now (spec.file_at environment.now path.now)) }
{
    match environment.files().get(path) {
        Some(file) => find_in_file(alloc, file, name),
        None => Ok(Found::Nothing),
    }
}

fn find_in_file<'a>(alloc: Global, file: &'a ManifestFile, name: &Text) -> Result<Found<'a>, Memory>
    ensures { IfOk result (λ f. spec.told f ≡ spec.defined_by name.now file.now.read) }
{
    match &file.read {
        Ok(file) => Ok(as_found(defined_in(alloc, file, name)?)),
        Err(fault) => Ok(Found::Fault(fault)),
    }
}

fn as_found(definition: Option<&Definition>) -> Found<'_>
    ensures { spec.told result ≡ spec.found_one (option_copied definition.entry) }
{
    match definition {
        Some(definition) => Found::Definition(definition),
        None => Found::Nothing,
    }
}

/// The class of a name, or F4 at this place. The fault of the file that the name gives comes first.
#[tactic(auto, unfolding(crate::specs::Definitions::class_found))]
pub fn class_found<'a>(
    alloc: Global,
    environment: &Environment<'a>,
    name: &Text,
    at: &Place,
) -> Result<&'a Class, Stop>
    ensures { Lends result (spec.class_found environment.now name.now at.now) }
{
    class_among(alloc, find(alloc, environment, name)?, name, at)
}

fn class_among<'a>(
    alloc: Global,
    found: Found<'a>,
    name: &Text,
    at: &Place,
) -> Result<&'a Class, Stop>
    ensures { Lends result (spec.class_among name.now at.now (spec.told found.entry)) }
{
    match found {
        Found::Definition(Definition::Class(class)) => Ok(class),
        Found::Definition(_) | Found::Nothing => {
            Err(Stop::Fault(unknown_class(alloc, name, at)?))
        }
        Found::Fault(fault) => Err(Stop::Fault(fault.copy(alloc)?)),
    }
}

fn unknown_class(alloc: Global, name: &Text, at: &Place) -> Result<Fault, Memory>
    ensures { IfOk result (λ f. f ≡ fault at.now (what.UnknownClass name.now)) }
{
    let at = at.copy(alloc)?;
    let name = name.copy(alloc)?;
    Fault::new(alloc, at, What::UnknownClass(name))
}

/// The define of a name, or F5 at this place. The fault of the file that the name gives comes first.
#[tactic(auto, unfolding(crate::specs::Definitions::define_found))]
pub fn define_found<'a>(
    alloc: Global,
    environment: &Environment<'a>,
    kind: &Text,
    at: &Place,
) -> Result<&'a Define, Stop>
    ensures { Lends result (spec.define_found environment.now kind.now at.now) }
{
    define_among(alloc, find(alloc, environment, kind)?, kind, at)
}

/// The define that was found, or F5 at this place.
pub fn define_among<'a>(
    alloc: Global,
    found: Found<'a>,
    kind: &Text,
    at: &Place,
) -> Result<&'a Define, Stop>
    ensures { Lends result (spec.define_among kind.now at.now (spec.told found.entry)) }
{
    match found {
        Found::Definition(Definition::Define(define)) => Ok(define),
        Found::Definition(_) | Found::Nothing => {
            Err(Stop::Fault(unknown_type(alloc, kind, at)?))
        }
        Found::Fault(fault) => Err(Stop::Fault(fault.copy(alloc)?)),
    }
}

/// F5 at this place.
pub fn unknown_type(alloc: Global, kind: &Text, at: &Place) -> Result<Fault, Memory>
    ensures { IfOk result (λ f. f ≡ fault at.now (what.UnknownType kind.now)) }
{
    let at = at.copy(alloc)?;
    let kind = kind.copy(alloc)?;
    Fault::new(alloc, at, What::UnknownType(kind))
}
