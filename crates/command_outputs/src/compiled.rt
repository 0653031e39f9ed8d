//! The output of a compile: the log and the catalog, or the line of its fault.
ghost use Rattle.std.specs.Prelude.{◌≡◌, IfOk};
ghost use Rattle.site_docs.specs.CatalogText.{catalog_text};
ghost use Rattle.site_docs.specs.FaultText.{fault_text};
ghost use Rattle.command_outputs.specs.Lines.{line};
ghost use Rattle.command_outputs.specs.Outputs.{catalog_output};

use crate::output::Output;
use pp_values::{Fault, Memory, Text};
use res_core::Catalog;
use site_docs::{log_text, write_catalog, write_fault};
use std::alloc::Global;

/// The output of a compile that made this catalog.
pub(crate) fn catalog_output(alloc: Global, catalog: &Catalog) -> Result<Output, Memory>
    ensures { IfOk result (λ output. output ≡ catalog_output catalog.now) }
{
    let log = log_text(alloc, catalog.log())?;
    let text = catalog_line(alloc, catalog)?;
    Ok(Output::Compiled { log, text })
}

fn catalog_line(alloc: Global, catalog: &Catalog) -> Result<Text, Memory>
    ensures { IfOk result (λ text. text ≡ line (catalog_text catalog.now)) }
{
    write_catalog(alloc, catalog)
}

/// The line of a fault.
pub(crate) fn fault_line(alloc: Global, fault: &Fault) -> Result<Text, Memory>
    ensures { IfOk result (λ text. text ≡ line (fault_text fault.now)) }
{
    write_fault(alloc, fault)
}
