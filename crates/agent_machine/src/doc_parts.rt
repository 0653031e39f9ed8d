//! Parts of a machine that is its document: machines with the records that one turn needs.
ghost use Rattle.std.specs.Prelude.{◌≡◌, is_ok, IfOk, if◌then◌else◌, option_map};
ghost use Rattle.agent_machine.specs.Parts.{copied, file_of, part_state};

use crate::states::States;
use pp_values::{Kind, Memory, Reference, Text};
use std::alloc::Global;

/// Copies the record of the file of that path.
fn copy_file(alloc: Global, state: &States, path: &Text, part: &mut States) -> Result<(), Memory>
    ensures { part.new ≡ (if is_ok result then copied (file_of path.now) state.now part.old else part.old) }
{
    let file = Reference {
        kind: Kind::from_str(alloc, "file")?,
        title: path.copy(alloc)?,
    };
    state.copy_into(alloc, &file, part)
}

/// The records that the turn of a resource needs.
pub fn part_state(
    alloc: Global,
    state: &States,
    what: &Reference,
    creates: Option<&Text>,
) -> Result<States, Memory>
    ensures { IfOk result (λ s. s ≡ part_state what.now (option_map (λ t. t.now) creates.entry) state.now) }
{
    let mut part = States::new(alloc);
    match creates {
        Some(path) => copy_file(alloc, state, path, &mut part)?,
        None => {}
    }
    state.copy_into(alloc, what, &mut part)?;
    Ok(part)
}
