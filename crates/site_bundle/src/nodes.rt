//! The nodes of a bundle.
ghost use Rattle.std.specs.Prelude.{◌≡◌, [], option_map, IfOk};
ghost use Rattle.pp_values.specs.Views.{view as value_view};
ghost use Rattle.serde_json.specs.View.{view, members_view};
ghost use Rattle.site_bundle.specs.Refusals.{Reads, ReadsAs};
ghost use Rattle.site_bundle.specs.Nodes.{listed_facts, with_node, with_nodes, all_nodes_in, nodes_of};

use crate::bundle_stop::BundleStop;
use crate::listed_nodes::ListedNodes;
use crate::refusing::{bad_member, bad_shape};
use crate::sent_facts::given_facts;
use pp_values::{Memory, Text, Value as FactValue};
use serde_json::{Map, Value};
use std::alloc::Global;
use word_rules::is_node_name;

/// The nodes of a bundle.
pub fn read_nodes(alloc: Global, bundle: &Value) -> Result<ListedNodes, BundleStop>
    ensures { Reads result (nodes_of (view bundle.now)) }
{
    match bundle.get("nodes") {
        Some(nodes) => all_nodes_in(alloc, nodes),
        None => Ok(ListedNodes::new(alloc)),
    }
}

fn all_nodes_in(alloc: Global, nodes: &Value) -> Result<ListedNodes, BundleStop>
    ensures { Reads result (all_nodes_in (view nodes.now)) }
{
    match nodes.as_object() {
        Some(members) => nodes_among(alloc, members),
        None => Err(bad_shape(alloc, "nodes")),
    }
}

fn nodes_among(alloc: Global, members: &Map<String, Value>) -> Result<ListedNodes, BundleStop>
    ensures { Reads result (with_nodes (members_view members.now.entries) []) }
{
    let mut nodes = ListedNodes::new(alloc);
    for (key, facts) in members {
        with_node(alloc, key.as_str(), facts, &mut nodes)?;
    }
    Ok(nodes)
}

#[tactic(auto, using(crate::proofs::FactSteps::listed_are_facts))]
fn with_node(
    alloc: Global,
    key: &str,
    facts: &Value,
    nodes: &mut ListedNodes,
) -> Result<(), BundleStop>
    ensures { ReadsAs (λ done. nodes.new) result (with_node nodes.old key.now (view facts.now)) }
{
    let Some(facts) = listed_facts(alloc, key, facts)? else {
        return Err(bad_member(alloc, "nodes", key));
    };
    let name = Text::from_str(alloc, key)?;
    nodes.list(name, facts)?;
    Ok(())
}

/// The facts that stand under a key, if it is the name of a node.
pub fn listed_facts(alloc: Global, key: &str, facts: &Value) -> Result<Option<FactValue>, Memory>
    ensures { IfOk result (λ o. option_map value_view o ≡ listed_facts key.now (view facts.now)) }
{
    if is_node_name(key) {
        given_facts(alloc, facts)
    } else {
        Ok(None)
    }
}
