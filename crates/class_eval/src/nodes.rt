//! The definitions of nodes.
ghost use Rattle.std.specs.Prelude.{◌≡◌, IfOk};
ghost use Rattle.std.specs.List.{slice_get};
ghost use Rattle.std.specs.Option.{option_copied, option_map};
ghost use Rattle.class_eval.specs.Evaluating as spec;

use pp_tree::{Definition, DefinitionName, Node, Table};
use pp_values::{Memory, Text};
use std::alloc::Global;

/// Whether some node is defined.
#[tactic(auto, unfolding(crate::specs::Evaluating::has_nodes), using(crate::proofs::NodeLines::node_step, crate::proofs::NodeLines::no_node))]
pub fn has_nodes(definitions: &Table) -> bool
    ensures { result ≡ spec.has_nodes definitions.now }
{
    for index in 0..definitions.len() {
        if is_node_at(definitions, index) {
            return true;
        }
    }
    false
}

fn is_node_at(definitions: &Table, index: usize) -> bool
    ensures { result ≡ spec.is_node_told (option_map (λ e. e.1) (slice_get definitions.now index)) }
{
    match definitions.at(index) {
        Some((_, definition)) => is_node(definition),
        None => false,
    }
}

fn is_node(definition: &Definition) -> bool
    ensures { result ≡ spec.is_node definition.now }
{
    matches!(definition, Definition::Node(_))
}

/// The definition of a node: with its exact name, or else `default`.
#[tactic(auto, unfolding(crate::specs::Evaluating::node_of))]
pub fn node_of<'a>(
    alloc: Global,
    definitions: &'a Table,
    name: &Text,
) -> Result<Option<&'a Node>, Memory>
    ensures { IfOk result (λ n. option_copied n ≡ spec.node_of definitions.now name.now) }
{
    let exact = DefinitionName::Node(Some(name.copy(alloc)?));
    match node_named(alloc, definitions, &exact)? {
        Some(node) => Ok(Some(node)),
        None => node_named(alloc, definitions, &DefinitionName::Node(None)),
    }
}

fn node_named<'a>(
    alloc: Global,
    definitions: &'a Table,
    name: &DefinitionName,
) -> Result<Option<&'a Node>, Memory>
    ensures { IfOk result (λ n. option_copied n ≡ spec.node_under definitions.now name.now) }
{
    match definitions.get(name) {
        Some(definition) => node_told(alloc, definitions, definition),
        None => Ok(None),
    }
}

/// A further name of a node definition leads to the first.
fn node_told<'a>(
    alloc: Global,
    definitions: &'a Table,
    definition: &'a Definition,
) -> Result<Option<&'a Node>, Memory>
    ensures { IfOk result (λ n. option_copied n ≡ spec.node_told definitions.now definition.now) }
{
    match definition {
        Definition::Node(node) => Ok(Some(node)),
        Definition::SameNode(first) => first_named(alloc, definitions, first),
        Definition::Class(_) | Definition::Define(_) | Definition::Function(_) => Ok(None),
    }
}

fn first_named<'a>(
    alloc: Global,
    definitions: &'a Table,
    first: &Option<Text>,
) -> Result<Option<&'a Node>, Memory>
    ensures { IfOk result (λ n. option_copied n ≡ spec.first_named definitions.now first.now) }
{
    let name = DefinitionName::Node(copy_name(alloc, first)?);
    match definitions.get(&name) {
        Some(definition) => Ok(node_in(definition)),
        None => Ok(None),
    }
}

fn copy_name(alloc: Global, name: &Option<Text>) -> Result<Option<Text>, Memory>
    ensures { IfOk result (λ n. n ≡ name.now) }
{
    match name {
        Some(text) => Ok(Some(text.copy(alloc)?)),
        None => Ok(None),
    }
}

fn node_in(definition: &Definition) -> Option<&Node>
    ensures { option_copied result ≡ spec.node_by definition.now }
{
    match definition {
        Definition::Node(node) => Some(node),
        _ => None,
    }
}
