//! The folders of configurations, and the paths at which these stand.
ghost use Rattle.std.specs.Prelude.{◌≡◌, IfOk};
ghost use Rattle.hiera_config.specs.Sources as spec;

use pp_values::{Memory, Text};
use std::alloc::Global;

/// How long a path mostly is at most.
pub const PATH_ROOM: usize = 64;

/// The path of a folder's configuration, written by way of `room`.
pub fn config_path(alloc: Global, folder: &str, room: &mut String) -> Result<Text, Memory>
    ensures { IfOk result (λ t. t ≡ spec.config_path folder.now) }
{
    room.clear();
    room.push_str(folder)?;
    room.push_str("hiera.yaml")?;
    Text::from_str(alloc, room.as_str())
}

/// A module's folder, written by way of `room`.
pub fn module_folder(alloc: Global, name: &str, room: &mut String) -> Result<Text, Memory>
    ensures { IfOk result (λ t. t ≡ spec.module_folder name.now) }
{
    room.clear();
    room.push_str("modules/")?;
    room.push_str(name)?;
    room.push_str("/")?;
    Text::from_str(alloc, room.as_str())
}
