//! Where definitions stand.
ghost use Rattle.std.specs.Prelude.{◌≡◌, IfOk};
ghost use Rattle.eval_classes.specs.Definitions as spec;

use crate::definitions::defined_in;
use crate::paths::{first_module, module_path};
use eval_world::Environment;
use pp_values::{MAIN_MANIFEST, Memory, Text};
use std::alloc::Global;

fn is_in_main(alloc: Global, environment: &Environment<'_>, name: &Text) -> Result<bool, Memory>
    ensures { IfOk result (λ b. b ≡ spec.in_main environment.now name.now) }
{
    Ok(defined_in(alloc, environment.main(), name)?.is_some())
}

/// The path of the file that the definition of a class or define stands in.
pub fn file_of(alloc: Global, environment: &Environment<'_>, name: &Text) -> Result<Text, Memory>
    ensures { IfOk result (λ t. t ≡ spec.file_of environment.now name.now) }
{
    if is_in_main(alloc, environment, name)? {
        return Text::from_str(alloc, MAIN_MANIFEST);
    }
    module_path(alloc, name)
}

/// The module whose folder holds the definition; the empty text for the main manifest.
pub fn module_of(alloc: Global, environment: &Environment<'_>, name: &Text) -> Result<Text, Memory>
    ensures { IfOk result (λ t. t ≡ spec.module_of environment.now name.now) }
{
    if is_in_main(alloc, environment, name)? {
        return Text::from_str(alloc, "");
    }
    first_module(alloc, name)
}
