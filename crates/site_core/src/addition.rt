ghost use Rattle.std.specs.Prelude.{◌≡◌, OnOk, OnErr};
ghost use Rattle.site_core.specs.Core.{with_event};
ghost use Rattle.site_core.specs.Answers.{Stops};
ghost use Rattle.site_core.specs.Additions.{entry_of, MayAdd};

use crate::done_stop::DoneStop;
use crate::language::Language;
use crate::plain::Plain;
use crate::snapshot::Snapshot;
use crate::state::CoreState;
use pp_values::{Text, Value};
use res_core::ExportSet;
use std::alloc::Global;

/// An entry that is to be added to a history.
#[derive(Drop)]
pub enum Addition<S> {
    /// What a compile from this snapshot exports.
    Publication {
        node: Text,
        facts: Value,
        snapshot: Snapshot<S>,
        set: ExportSet,
    },
    /// What is asked for by one entry.
    Plain(Plain<S>),
}

/// Adds it, as the author's next entry.
pub fn add<L: Language>(
    alloc: Global,
    core: &mut CoreState<L>,
    author: u32,
    addition: Addition<L::Site>,
) -> Result<u32, DoneStop>
    requires { MayAdd L.meaning addition core.old.history }
    ensures stop { Stops core.old result }
    ensures ok { OnOk result (core.new ≡ with_event core.old (entry_of addition author core.old.history)) }
    ensures err { OnErr result (core.new ≡ core.old) }
{
    match addition {
        Addition::Publication {
            node,
            facts,
            snapshot,
            set,
        } => core.done(alloc, author, node, facts, snapshot, set),
        Addition::Plain(what) => core.add_plain(alloc, author, what),
    }
}
