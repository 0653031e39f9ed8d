//! Where functions of the site are found by their names.
ghost use Rattle.std.specs.Prelude.{◌≡◌, ◌∷◌, Some, IfOk};
ghost use Rattle.std.specs.Option.{option_copied};
ghost use Rattle.eval_classes.specs.Answers.{Tells};
ghost use Rattle.eval_classes.specs.Functions as spec;
ghost use Rattle.res_core.specs.TagNames.{segments};

use crate::site_function::SiteFunction;
use eval_world::Environment;
use pp_tree::{Definition, DefinitionName, File, Function, ManifestFile};
use pp_values::{MAIN_MANIFEST, Memory, Stop, Text};
use std::alloc::Global;

/// How many bytes the path of a function's file has beside those of its module and its name.
const BESIDE: usize = 22;

/// The function of a name without a leading `::`, where the site defines one. The fault of the file that the name gives
/// comes where the main manifest has no such function.
#[tactic(auto, unfolding(crate::specs::Functions::function_found))]
pub fn function_found<'a>(
    alloc: Global,
    environment: &Environment<'a>,
    name: &Text,
) -> Result<Option<SiteFunction<'a>>, Stop>
    ensures { Tells spec.seen result (spec.function_found environment.now name.now) }
{
    match function_in(alloc, environment.main(), name)? {
        Some(function) => {
            let file = Text::from_str(alloc, MAIN_MANIFEST)?;
            Ok(Some(SiteFunction { function, file }))
        }
        None => function_in_module(alloc, environment, name),
    }
}

/// What a file defines as the function of a name.
fn function_in<'a>(
    alloc: Global,
    file: &'a File,
    name: &Text,
) -> Result<Option<&'a Function>, Memory>
    ensures { IfOk result (λ o. option_copied o ≡ spec.function_in name.now file.now) }
{
    let name = DefinitionName::Function(name.copy(alloc)?);
    match file.definitions.get(&name) {
        Some(definition) => Ok(function_by(definition)),
        None => Ok(None),
    }
}

fn function_by(definition: &Definition) -> Option<&Function>
    ensures { option_copied result ≡ spec.function_by definition.now }
{
    match definition {
        Definition::Function(function) => Some(function),
        _ => None,
    }
}

/// The function that the one file of a module defines that the name gives.
fn function_in_module<'a>(
    alloc: Global,
    environment: &Environment<'a>,
    name: &Text,
) -> Result<Option<SiteFunction<'a>>, Stop>
    ensures { Tells spec.seen result
        (spec.function_in_module environment.now name.now (spec.function_path name.now)) }
{
    match function_path(alloc, name)? {
        Some(path) => function_at(alloc, environment, path, name),
        None => Ok(None),
    }
}

fn function_at<'a>(
    alloc: Global,
    environment: &Environment<'a>,
    path: Text,
    name: &Text,
) -> Result<Option<SiteFunction<'a>>, Stop>
    ensures { Tells spec.seen result (spec.function_in_module environment.now name.now (Some path)) }
{
    match environment.files().get(&path) {
        Some(file) => read_in(alloc, file, path, name),
        None => Ok(None),
    }
}

fn read_in<'a>(
    alloc: Global,
    file: &'a ManifestFile,
    path: Text,
    name: &Text,
) -> Result<Option<SiteFunction<'a>>, Stop>
    ensures { Tells spec.seen result (spec.read_in name.now path file.now.read) }
{
    match &file.read {
        Ok(tree) => Ok(placed(function_in(alloc, tree, name)?, path)),
        Err(fault) => Err(Stop::Fault(fault.copy(alloc)?)),
    }
}

fn placed(function: Option<&Function>, file: Text) -> Option<SiteFunction<'_>>
    ensures { spec.seen result ≡ spec.in_file file (option_copied function.entry) }
{
    match function {
        Some(function) => Some(SiteFunction { function, file }),
        None => None,
    }
}

/// The path of the one file of a module that may define a function of this name.
pub fn function_path(alloc: Global, name: &Text) -> Result<Option<Text>, Memory>
    ensures { IfOk result (λ o. o ≡ spec.function_path name.now) }
{
    path_in(alloc, name.as_str())
}

fn path_in(alloc: Global, name: &str) -> Result<Option<Text>, Memory>
    ensures { IfOk result (λ o. o ≡ spec.path_by (segments name.now)) }
{
    match name.split_once("::") {
        None => Ok(None),
        Some((front, rest)) => path_behind(alloc, front, rest),
    }
}

/// The path, where what stands behind the module is one segment.
fn path_behind(alloc: Global, front: &str, rest: &str) -> Result<Option<Text>, Memory>
    ensures { IfOk result (λ o. o ≡ spec.path_by (front.now ∷ segments rest.now)) }
{
    match rest.split_once("::") {
        None => one_path(alloc, front, rest),
        Some(_) => Ok(None),
    }
}

fn one_path(alloc: Global, front: &str, function: &str) -> Result<Option<Text>, Memory>
    ensures { IfOk result (λ o. o ≡ Some (spec.file_of_function front.now function.now)) }
{
    Ok(Some(path_of(alloc, front, function)?))
}

fn path_of(alloc: Global, front: &str, function: &str) -> Result<Text, Memory>
    ensures { IfOk result (λ t. t ≡ spec.file_of_function front.now function.now) }
{
    let room = front
        .len()
        .saturating_add(function.len())
        .saturating_add(BESIDE);
    let mut path = String::with_capacity(alloc, room)?;
    path.push_str("modules/")?;
    path.push_str(front)?;
    path.push_str("/functions/")?;
    path.push_str(function)?;
    path.push_str(".pp")?;
    Ok(Text::new(path))
}
