ghost use Rattle.std.specs.Prelude.{◌≡◌, IfOk};

use crate::report_line::ReportLine;
use pp_values::{Items, Memory, Text};
use std::alloc::Global;

/// The lines of a report.
pub type ReportLines = Items<ReportLine>;

/// What became of the resources of a node's catalog.
#[derive(Drop)]
pub struct Report {
    pub node: Text,
    /// One for each native resource, in the order in which they had their turns.
    pub lines: ReportLines,
}

impl Report {
    pub fn copy(&self, alloc: Global) -> Result<Report, Memory>
        ensures { IfOk result (λ r. r ≡ self.now) }
    {
        Ok(Report {
            node: self.node.copy(alloc)?,
            lines: copy_lines(alloc, &self.lines)?,
        })
    }
}

fn copy_lines(alloc: Global, lines: &ReportLines) -> Result<ReportLines, Memory>
    ensures { IfOk result (λ l. l ≡ lines.now) }
{
    let mut items = Vec::with_capacity(alloc, lines.len())?;
    for line in lines.as_slice() {
        items.push(line.copy(alloc)?)?;
    }
    Ok(ReportLines::from_vec(items))
}
