ghost use Rattle.std.specs.Prelude.{◌≡◌, IfOk};

use crate::status::Status;
use pp_values::{Memory, Reference, Text, Texts, copy_texts};
use std::alloc::Global;

/// What a report says of a resource.
pub struct ReportLine {
    pub item: Reference,
    pub status: Status,
    /// The properties that were written, or that would have been, in order; `run` for what was run.
    pub changes: Texts,
    /// Whether it was refreshed because of others.
    pub refreshed: bool,
    /// Which call failed, such as `write mode`.
    pub fault: Option<Text>,
}

// By hand, so that letting one go is one step for whoever holds it.
impl Drop for ReportLine {
    fn drop(self) {
        let ReportLine {
            item: _item,
            status: _status,
            changes: _changes,
            refreshed: _refreshed,
            fault: _fault,
        } = self;
    }
}

impl ReportLine {
    pub fn copy(&self, alloc: Global) -> Result<ReportLine, Memory>
        ensures { IfOk result (λ l. l ≡ self.now) }
    {
        Ok(ReportLine {
            item: self.item.copy(alloc)?,
            status: self.status,
            changes: copy_texts(alloc, &self.changes)?,
            refreshed: self.refreshed,
            fault: copy_fault(alloc, &self.fault)?,
        })
    }
}

fn copy_fault(alloc: Global, fault: &Option<Text>) -> Result<Option<Text>, Memory>
    ensures { IfOk result (λ f. f ≡ fault.now) }
{
    match fault {
        Some(text) => Ok(Some(text.copy(alloc)?)),
        None => Ok(None),
    }
}
