//! The catalog of a node of a site by itself.
ghost use Rattle.std.specs.FinMap as fin;
ghost use Rattle.compile_core.specs.Puppet.{puppet};
ghost use Rattle.pp_values.specs.Views.{view};
ghost use Rattle.command_outputs.specs.Nodes.{CompilesNode, catalog_made, node_meaning};

use crate::node_stop::NodeStop;
use compile_core::compile;
use export_store::Version;
use pp_values::{Stop, Text, Value};
use res_core::Catalog;
use site_bundle::Site;
use std::alloc::Global;

/// The node's catalog by the facts that the site lists for it, where no node exports anything.
#[tactic(auto, unfolding(crate::specs::Nodes::node_meaning))]
pub fn compile_node(alloc: Global, site: &Site, node: &str) -> Result<Catalog, NodeStop>
    ensures { CompilesNode result (node_meaning site.now node.now) }
{
    let node = Text::from_str(alloc, node)?;
    match site.facts_of(&node) {
        Some(facts) => compile_with(alloc, site, &node, facts),
        None => Err(NodeStop::Unknown),
    }
}

fn compile_with(alloc: Global, site: &Site, node: &Text, facts: &Value) -> Result<Catalog, NodeStop>
    ensures { CompilesNode result (catalog_made (puppet site.now node.now (view facts.now) fin.empty)) }
{
    match compile(alloc, site, node, facts, &Version::empty(alloc)) {
        Ok((catalog, _)) => Ok(catalog),
        Err(Stop::Fault(fault)) => Err(NodeStop::Fault(fault)),
        Err(Stop::Memory) => Err(NodeStop::Memory),
    }
}
