ghost use Rattle.std.specs.Prelude.{◌≡◌, IfOk};
ghost use Rattle.site_core.specs.Changes.{IsChangeOf};
ghost use Rattle.site_core.specs.EntryViews.{event_of};
ghost use Rattle.site_core.specs.Events.{adds};

use crate::entry::Entry;
use crate::plain::Plain;
use export_store::Version;
use pp_values::Memory;
use std::alloc::Global;
use std::sync::Arc;

/// What an entry replaces of what is kept beside the history.
#[derive(Drop)]
pub enum Change<S> {
    Exports(Version),
    Site(Arc<S>),
    Nothing,
}

/// The entry that is asked for, as this author's with this number, and what it replaces behind entries that left this
/// version.
pub fn plain_entry<S>(
    alloc: Global,
    version: &Version,
    author: u32,
    call: u32,
    what: Plain<S>,
) -> Result<(Entry<S>, Change<S>), Memory>
where
    S: Drop,
    ensures entry { IfOk result (λ made. event_of made.0 ≡ adds author call what) }
    ensures change { IfOk result (λ made. IsChangeOf made.1 version.now (adds author call what)) }
{
    match what {
        Plain::Deactivate { node } => {
            let version = version.without(alloc, &node)?;
            let entry = Entry::Deactivate { author, call, node };
            Ok((entry, Change::Exports(version)))
        }
        Plain::Deploy { site } => {
            let site = Arc::new(alloc, site)?;
            let entry = Entry::Deploy {
                author,
                call,
                site: site.clone()?,
            };
            Ok((entry, Change::Site(site)))
        }
        Plain::Report { node, report } => {
            let report = Arc::new(alloc, report)?;
            let entry = Entry::Report {
                author,
                call,
                node,
                report,
            };
            Ok((entry, Change::Nothing))
        }
    }
}
