//! The refusals that name a path.
ghost use Rattle.std.specs.Prelude.{◌≡◌, IfOk};
ghost use Rattle.agent_docs.specs.MachineMembers.{failing_path, record_path, under, Tells};

use crate::machine_stop::MachineStop;
use pp_values::{Memory, Text};
use std::alloc::Global;

/// What stands at this path is not of its kind.
pub(crate) fn bad_path(alloc: Global, path: &str) -> MachineStop
    ensures { Tells result path.now }
{
    match Text::from_str(alloc, path) {
        Ok(path) => MachineStop::Bad(path),
        Err(_) => MachineStop::Memory,
    }
}

/// What fails has no text at this place, counted from 0.
pub(crate) fn bad_failing(alloc: Global, index: usize) -> MachineStop
    ensures { Tells result (failing_path index) }
{
    match failing_path(alloc, index) {
        Ok(path) => MachineStop::Bad(path),
        Err(_) => MachineStop::Memory,
    }
}

/// What stands in the state under this text is no record.
pub(crate) fn bad_record(alloc: Global, key: &str) -> MachineStop
    ensures { Tells result (record_path key.now) }
{
    match record_path(alloc, key) {
        Ok(path) => MachineStop::Bad(path),
        Err(_) => MachineStop::Memory,
    }
}

/// What stands in this record under this name is no form of a value.
pub(crate) fn bad_property(alloc: Global, key: &str, name: &str) -> MachineStop
    ensures { Tells result (under (record_path key.now) name.now) }
{
    match property_path(alloc, key, name) {
        Ok(path) => MachineStop::Bad(path),
        Err(_) => MachineStop::Memory,
    }
}

fn failing_path(alloc: Global, index: usize) -> Result<Text, Memory>
    ensures { IfOk result (λ t. t ≡ failing_path index) }
{
    let path = format!(in alloc; "machine.failing.{index}")?;
    Ok(Text::new(path))
}

fn record_path(alloc: Global, key: &str) -> Result<Text, Memory>
    ensures { IfOk result (λ t. t ≡ record_path key.now) }
{
    let mut path = String::from_str(alloc, "machine.state")?;
    path.push_str(".")?;
    path.push_str(key)?;
    Ok(Text::new(path))
}

fn property_path(alloc: Global, key: &str, name: &str) -> Result<Text, Memory>
    ensures { IfOk result (λ t. t ≡ under (record_path key.now) name.now) }
{
    let mut path = record_path(alloc, key)?.into_string(alloc)?;
    path.push_str(".")?;
    path.push_str(name)?;
    Ok(Text::new(path))
}
