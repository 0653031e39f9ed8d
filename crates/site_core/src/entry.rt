ghost use Rattle.std.specs.Prelude.{◌≡◌};
ghost use Rattle.site_core.specs.Events.{author_of};
ghost use Rattle.site_core.specs.EntryViews.{event_of};

use agent_machine::Report;
use pp_values::{Text, Value};
use res_core::ExportSet;
use std::sync::Arc;

/// An entry of a site's history.
#[derive(Drop)]
pub enum Entry<S> {
    /// The site was opened.
    Open {
        site: Arc<S>,
    },
    /// A node's exports took the place of those that it had.
    Publish {
        /// Who made the entry.
        author: u32,
        /// How many entries this author made before.
        call: u32,
        node: Text,
        /// The facts that the node was compiled with.
        facts: Value,
        /// How many entries stood when the compile began: the sets and the site after so many entries are what it saw.
        k: u32,
        set: Arc<ExportSet>,
    },
    /// A node exports nothing any more.
    Deactivate {
        /// Who made the entry.
        author: u32,
        /// How many entries this author made before.
        call: u32,
        node: Text,
    },
    /// Another site took the place of the one in force. Compiles that had begun kept theirs.
    Deploy {
        /// Who made the entry.
        author: u32,
        /// How many entries this author made before.
        call: u32,
        site: Arc<S>,
    },
    /// What became of a node's catalog was told. No set changed.
    Report {
        /// Who made the entry.
        author: u32,
        /// How many entries this author made before.
        call: u32,
        /// The node that the report names, where the entry was made by `file_report`.
        node: Text,
        report: Arc<Report>,
    },
}

impl<S> Entry<S> {
    /// Who made the entry; none made the opening.
    pub fn author(&self) -> Option<u32>
        ensures { result ≡ author_of (event_of self.now) }
    {
        match self {
            Entry::Open { .. } => None,
            Entry::Publish { author, .. }
            | Entry::Deactivate { author, .. }
            | Entry::Deploy { author, .. }
            | Entry::Report { author, .. } => Some(*author),
        }
    }
}
