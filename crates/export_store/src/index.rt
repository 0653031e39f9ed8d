//! The index of a version: under the key of a kind, and of a kind and a tag, the nodes that export such a resource.
ghost use Rattle.std.specs.Prelude.{◌≡◌, ◌∷◌, [], ◌++◌, None, Some, IfOk, OnOk, option_copied};
ghost use Rattle.std.specs.Arc.{arc_value};
ghost use Rattle.pp_values.specs.Rising.{sorted};
ghost use Rattle.res_core.specs.TagNames.{lowered};
ghost use Rattle.export_store.specs.Indexing.{key_of, keys_of, resource_keys, set_keys, SetsUnder, SetsAmong};

use crate::table::Table;
use pp_values::{Memory, Text};
use res_core::{ExportSet, Resource};
use std::alloc::Global;
use std::sync::Arc;

/// By key, nodes with their sets.
pub type Index = Table<Table<ExportSet>>;

/// The key of a kind, or of a kind and a tag.
pub fn key_of(alloc: Global, kind: &Text, tag: Option<&Text>) -> Result<Text, Memory>
    ensures { IfOk result (λ key. key ≡ key_of kind.now (option_copied tag.entry)) }
{
    match tag {
        Some(tag) => tag_key(alloc, kind, tag),
        None => kind.copy(alloc),
    }
}

/// The keys of a set's resources, in rising order and each once.
pub fn set_keys(alloc: Global, set: &ExportSet) -> Result<Vec<Text>, Memory>
    ensures { IfOk result (λ v. v.items ≡ set_keys set.now) }
{
    let keys = all_keys(alloc, set)?;
    Ok(in_order(keys))
}

/// The index in which the node has this set under each of these keys.
pub fn index_with(
    alloc: Global,
    index: &Index,
    keys: &[Text],
    node: &Text,
    set: &Arc<ExportSet>,
) -> Result<Index, Memory>
    ensures { IfOk result (λ new. SetsUnder keys.now node.now (Some (arc_value set.now)) index.now new) }
{
    let mut new = index.copy()?;
    for key in keys {
        new = with_key(alloc, &new, key, node, set)?;
    }
    Ok(new)
}

/// The index in which the node has no set under any of these keys.
pub fn index_without(
    alloc: Global,
    index: &Index,
    keys: &[Text],
    node: &Text,
) -> Result<Index, Memory>
    ensures { IfOk result (λ new. SetsUnder keys.now node.now None index.now new) }
{
    let mut new = index.copy()?;
    for key in keys {
        new = without_key(alloc, &new, key, node)?;
    }
    Ok(new)
}

fn with_key(
    alloc: Global,
    index: &Index,
    key: &Text,
    node: &Text,
    set: &Arc<ExportSet>,
) -> Result<Index, Memory>
    ensures { IfOk result (λ new. SetsUnder (key.now ∷ []) node.now (Some (arc_value set.now)) index.now new) }
{
    let set = set.clone()?;
    let nodes = nodes_with(alloc, index.get(key), node, set)?;
    let nodes = Arc::new(alloc, nodes)?;
    let new = index.with(alloc, key, nodes)?;
    Ok(new)
}

/// The nodes, if there are any, and this one with its set.
#[tactic(auto, using(crate::proofs::IndexLemmas::among_with, crate::proofs::IndexLemmas::among_first))]
fn nodes_with(
    alloc: Global,
    nodes: Option<&Table<ExportSet>>,
    node: &Text,
    set: Arc<ExportSet>,
) -> Result<Table<ExportSet>, Memory>
    ensures { IfOk result (λ new. SetsAmong node.now (Some (arc_value set)) (option_copied nodes.entry) new) }
{
    match nodes {
        Some(nodes) => nodes.with(alloc, node, set),
        None => Table::empty().with(alloc, node, set),
    }
}

/// A key under which no node is left goes too.
fn without_key(alloc: Global, index: &Index, key: &Text, node: &Text) -> Result<Index, Memory>
    ensures { IfOk result (λ new. SetsUnder (key.now ∷ []) node.now None index.now new) }
{
    let Some(nodes) = index.get(key) else {
        return index.copy();
    };
    let left = nodes.without(alloc, node)?;
    if left.is_empty() {
        let new = index.without(alloc, key)?;
        return Ok(new);
    }
    let left = Arc::new(alloc, left)?;
    let new = index.with(alloc, key, left)?;
    Ok(new)
}

fn all_keys(alloc: Global, set: &ExportSet) -> Result<Vec<Text>, Memory>
    ensures { IfOk result (λ v. v.items ≡ keys_of set.now.items) }
{
    let mut keys = Vec::new(alloc);
    for exported in set.items.as_slice() {
        push_keys(alloc, &mut keys, exported.item.as_resource())?;
    }
    Ok(keys)
}

/// Appends a resource's keys.
fn push_keys(alloc: Global, keys: &mut Vec<Text>, resource: &Resource) -> Result<(), Memory>
    ensures { OnOk result (keys.new.items ≡ keys.old.items ++ resource_keys resource.now.kind resource.now.tags) }
{
    let kind = resource.kind.as_text();
    keys.push(kind.copy(alloc)?)?;
    for tag in resource.tags.as_slice() {
        keys.push(tag_key(alloc, kind, tag)?)?;
    }
    Ok(())
}

fn tag_key(alloc: Global, kind: &Text, tag: &Text) -> Result<Text, Memory>
    ensures { IfOk result (λ key. key ≡ key_of kind.now (Some tag.now)) }
{
    let mut key = String::from_str(alloc, kind.as_str())?;
    key.push_str("\n")?;
    key.push_str(tag.as_str())?;
    key.make_ascii_lowercase();
    Text::from_str(alloc, key.as_str())
}

/// These texts in rising order, each once.
fn in_order(texts: Vec<Text>) -> Vec<Text>
    ensures { result.items ≡ sorted texts.items }
{
    let mut texts = texts;
    texts.sort_unstable();
    texts.dedup();
    texts
}
