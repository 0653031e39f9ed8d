//! The calls of a tree by which a folder is read.
ghost use Rattle.std.specs.Prelude.{◌≡◌, ◌≤◌, ◌++◌, IfOk, IfSome, length, map, option_map};
ghost use Rattle.site_bundle.specs.declared.limits.TheConstants.{MOST_FILE_BYTES as MOST};
ghost use Rattle.site_bundle.specs.FolderSites.{names_walk, content_walk, file_walk, entry_walk, folder_walk, node_of};
ghost use Rattle.site_bundle.specs.FolderSites.{facts_walk, nodes_walk};
ghost use Rattle.site_bundle.specs.Gathering.{site_file, facts_file, machine_file};
ghost use Rattle.site_bundle.specs.Walks.{Goes, in_turn};

use crate::bundle_stop::BundleStop;
use crate::gathered::Gathered;
use crate::limits::MOST_FILE_BYTES;
use crate::refusing::too_large;
use pp_values::{Memory, Text, Texts};
use site_io::{Bytes, Content, Listed, Tree, ends_in_slash};
use std::alloc::Global;

/// The names in a folder; an absent one is an empty one.
fn list_names<T: Tree>(
    alloc: Global,
    tree: &mut T,
    front: &str,
    path: &str,
) -> Result<Texts, BundleStop>
    ensures { Goes (λ names. names) result (names_walk front.now path.now) (T.folder tree.old) (T.folder tree.new) }
{
    let called = joined(alloc, front, path)?;
    match tree.list(alloc, &called) {
        Listed::Names(names) => Ok(names),
        Listed::Missing => Ok(Texts::new(alloc)),
        Listed::Failed => Err(BundleStop::TreeFault(called)),
        Listed::Memory => Err(BundleStop::Memory),
    }
}

/// The content of a file, if there is one.
fn read_content<T: Tree>(
    alloc: Global,
    tree: &mut T,
    front: &str,
    path: &str,
) -> Result<Option<Bytes>, BundleStop>
    ensures goes { Goes (λ content. content) result (content_walk front.now path.now) (T.folder tree.old) (T.folder tree.new) }
    ensures short { IfOk result (λ o. IfSome o (λ content. length content ≤ MOST)) }
{
    let called = joined(alloc, front, path)?;
    match tree.read_file(alloc, &called, MOST_FILE_BYTES) {
        Content::Bytes(content) => Ok(Some(content)),
        Content::Missing => Ok(None),
        Content::TooLarge => Err(too_large(alloc, path)),
        Content::Failed => Err(BundleStop::TreeFault(called)),
        Content::Memory => Err(BundleStop::Memory),
    }
}

pub fn read_site_file<T: Tree>(
    alloc: Global,
    tree: &mut T,
    front: &str,
    path: &str,
    gathered: &mut Gathered,
) -> Result<(), BundleStop>
    ensures { Goes (λ done. gathered.new) result (file_walk site_file front.now path.now gathered.old)
        (T.folder tree.old) (T.folder tree.new) }
{
    match read_content(alloc, tree, front, path)? {
        Some(content) => gathered.keep_site_file(alloc, path, content),
        None => Ok(()),
    }
}

pub fn read_machine_file<T: Tree>(
    alloc: Global,
    tree: &mut T,
    front: &str,
    path: &str,
    gathered: &mut Gathered,
) -> Result<(), BundleStop>
    ensures { Goes (λ done. gathered.new) result (file_walk machine_file front.now path.now gathered.old)
        (T.folder tree.old) (T.folder tree.new) }
{
    match read_content(alloc, tree, front, path)? {
        Some(content) => gathered.keep_machine(alloc, path, content),
        None => Ok(()),
    }
}

fn read_facts_file<T: Tree>(
    alloc: Global,
    tree: &mut T,
    front: &str,
    node: &str,
    path: &str,
    gathered: &mut Gathered,
) -> Result<(), BundleStop>
    ensures { Goes (λ done. gathered.new) result (file_walk (facts_file node.now) front.now path.now gathered.old)
        (T.folder tree.old) (T.folder tree.new) }
{
    match read_content(alloc, tree, front, path)? {
        Some(content) => gathered.keep_facts(alloc, node, path, content),
        None => Ok(()),
    }
}

/// Reads all files of a folder and of the folders in it, which are so many levels deep at most.
#[cycle(walking)]
pub fn read_folder<T: Tree>(
    alloc: Global,
    tree: &mut T,
    levels: usize,
    front: &str,
    path: &str,
    gathered: &mut Gathered,
) -> Result<(), BundleStop>
    ensures { Goes (λ done. gathered.new) result (folder_walk levels front.now path.now gathered.old)
        (T.folder tree.old) (T.folder tree.new) }
{
    if levels == 0 {
        return Err(too_large(alloc, path));
    }
    let names = list_names(alloc, tree, front, path)?;
    read_entries(
        alloc,
        tree,
        levels - 1,
        front,
        path,
        names.as_slice(),
        gathered,
    )
}

#[cycle(walking)]
fn read_entries<T: Tree>(
    alloc: Global,
    tree: &mut T,
    levels: usize,
    front: &str,
    path: &str,
    names: &[Text],
    gathered: &mut Gathered,
) -> Result<(), BundleStop>
    ensures { Goes (λ done. gathered.new) result
        (in_turn (map (λ name. entry_walk (folder_walk levels front.now) front.now (path.now ++ name)) names.now)
        gathered.old) (T.folder tree.old) (T.folder tree.new) }
{
    let mut left = names;
    while let [name, after @ ..] = left {
        let entry = joined(alloc, path, name.as_str())?;
        read_entry(alloc, tree, levels, front, entry.as_str(), gathered)?;
        left = after;
    }
    Ok(())
}

#[cycle(walking)]
fn read_entry<T: Tree>(
    alloc: Global,
    tree: &mut T,
    levels: usize,
    front: &str,
    path: &str,
    gathered: &mut Gathered,
) -> Result<(), BundleStop>
    ensures { Goes (λ done. gathered.new) result
        (entry_walk (folder_walk levels front.now) front.now path.now gathered.old) (T.folder tree.old)
        (T.folder tree.new) }
{
    if ends_in_slash(path) {
        read_folder(alloc, tree, levels, front, path, gathered)
    } else {
        read_site_file(alloc, tree, front, path, gathered)
    }
}

/// Reads the facts of all nodes.
pub fn read_nodes_folder<T: Tree>(
    alloc: Global,
    tree: &mut T,
    front: &str,
    gathered: &mut Gathered,
) -> Result<(), BundleStop>
    ensures { Goes (λ done. gathered.new) result (nodes_walk front.now gathered.old) (T.folder tree.old)
        (T.folder tree.new) }
{
    let names = list_names(alloc, tree, front, "nodes/")?;
    read_all_facts(alloc, tree, front, names.as_slice(), gathered)
}

fn read_all_facts<T: Tree>(
    alloc: Global,
    tree: &mut T,
    front: &str,
    names: &[Text],
    gathered: &mut Gathered,
) -> Result<(), BundleStop>
    ensures { Goes (λ done. gathered.new) result (in_turn (map (facts_walk front.now) names.now) gathered.old)
        (T.folder tree.old) (T.folder tree.new) }
{
    let mut left = names;
    while let [name, after @ ..] = left {
        read_facts(alloc, tree, front, name.as_str(), gathered)?;
        left = after;
    }
    Ok(())
}

/// Reads the facts of a node, if this is the name of such a file.
fn read_facts<T: Tree>(
    alloc: Global,
    tree: &mut T,
    front: &str,
    name: &str,
    gathered: &mut Gathered,
) -> Result<(), BundleStop>
    ensures { Goes (λ done. gathered.new) result (facts_walk front.now name.now gathered.old) (T.folder tree.old)
        (T.folder tree.new) }
{
    match node_of(name) {
        Some(node) => {
            let path = joined(alloc, "nodes/", name)?;
            read_facts_file(alloc, tree, front, node, path.as_str(), gathered)
        }
        None => Ok(()),
    }
}

/// The node whose facts the file of this name has.
fn node_of(name: &str) -> Option<&str>
    ensures { option_map (λ node. node.now) result ≡ node_of name.now }
{
    name.strip_suffix(".json")
}

fn joined(alloc: Global, front: &str, path: &str) -> Result<Text, Memory>
    ensures { IfOk result (λ t. t ≡ front.now ++ path.now) }
{
    let mut text = String::from_str(alloc, front)?;
    text.push_str(path)?;
    Ok(Text::new(text))
}
