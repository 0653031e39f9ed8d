//! The output to the compile of a node: the log and the node's catalog, or why it has none.
ghost use Rattle.std.specs.Prelude.{◌≡◌, ◌++◌, codes, IfOk};
ghost use Rattle.command_outputs.specs.Lines.{line};
ghost use Rattle.command_outputs.specs.Outputs.{compiled_output};
ghost use Rattle.command_outputs.specs.Stops.{TellsNodeStop};

use crate::compiled::{catalog_output, fault_line};
use crate::lines::line;
use crate::node_catalog::compile_node;
use crate::node_stop::NodeStop;
use crate::output::Output;
use pp_values::{Memory, Text};
use site_bundle::Site;
use std::alloc::Global;
use std::mem::forget;

/// The output for a node of a site.
pub fn compile_output(alloc: Global, site: &Site, node: &str) -> Result<Output, Memory>
    ensures { IfOk result (λ output. output ≡ compiled_output site.now node.now) }
{
    match compile_node(alloc, site, node) {
        Ok(catalog) => {
            let output = catalog_output(alloc, &catalog);
            // Left to the end of the process.
            forget(catalog);
            output
        }
        Err(stop) => refuse_node(alloc, node, &stop),
    }
}

/// Tells why the node has no catalog.
pub fn refuse_node(alloc: Global, node: &str, stop: &NodeStop) -> Result<Output, Memory>
    ensures { IfOk result (λ output. TellsNodeStop output node.now stop.now) }
{
    match stop {
        NodeStop::Unknown => Ok(Output::Fault(unknown_line(alloc, node)?)),
        NodeStop::Fault(fault) => Ok(Output::Fault(fault_line(alloc, fault)?)),
        NodeStop::Memory => Err(Memory),
    }
}

/// The line that tells that the site doesn't list the node.
fn unknown_line(alloc: Global, node: &str) -> Result<Text, Memory>
    ensures { IfOk result (λ text. text ≡ line (codes "unknown node " ++ node.now)) }
{
    line(alloc, Text::new(format!(in alloc; "unknown node {node}")?))
}
