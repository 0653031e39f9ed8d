//! The output to a journal that is written anew.
ghost use Rattle.std.specs.Prelude.{◌≡◌, IfOk};
ghost use Rattle.command_outputs.specs.Journals.{migrated_output};

use crate::output::Output;
use pp_values::Memory;
use site_bundle::Site;
use site_core::History;
use site_docs::write_journal;
use std::alloc::Global;

/// The journal of a history, in the version that is written today.
pub fn migrate_output(alloc: Global, history: &History<Site>) -> Result<Output, Memory>
    ensures { IfOk result (λ output. output ≡ migrated_output history.now.entries) }
{
    Ok(Output::Done(write_journal(alloc, history)?))
}
