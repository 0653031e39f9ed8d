//! Reading a site from a folder of a tree.
ghost use Rattle.std.specs.Prelude.{IfOk, IfSome, IsSome};
ghost use Rattle.std.specs.FinMap.{find};
ghost use Rattle.pp_values.specs.Rising.{text_cmp};
ghost use Rattle.pp_values.specs.declared.place.TheConstants.{MAIN_MANIFEST as MAIN};
ghost use Rattle.site_bundle.specs.FolderSites.{main_walk, files_walk, bundle_with, site_walk};
ghost use Rattle.site_bundle.specs.Gathering.{with_main};
ghost use Rattle.site_bundle.specs.Refusals.{Reads, ReadsAs};
ghost use Rattle.site_bundle.specs.Walks.{Goes, ReadsTold, end_over};

use crate::bundle::Bundle;
use crate::bundle_stop::BundleStop;
use crate::files::lacks_main;
use crate::gathered::Gathered;
use crate::kept_files::KeptFiles;
use crate::limits::MOST_LEVELS;
use crate::refusing::bad_shape;
use crate::site::site_with;
use crate::walking::{read_folder, read_machine_file, read_nodes_folder, read_site_file};
use pp_values::{MAIN_MANIFEST, Text};
use res_core::Requests;
use site_io::{Tree, folder_front};
use std::alloc::Global;
use std::thread::Threads;

/// The site in a folder, with its machine, or the first thing that is wrong in it. Nothing is asked of it.
///
/// Files are read by path in byte order, each once: all in `data/`, `global/` and `modules/`, and those of the main
/// manifest, the machine and the nodes. After a refusal nothing more is asked of the tree. The manifests are parsed once
/// all files are read, side by side where threads can be had.
pub fn read_site<T: Tree, R: Threads>(
    rt: &R,
    alloc: Global,
    tree: &mut T,
    folder: &Text,
) -> Result<Bundle, BundleStop>
    ensures goes { Goes (λ b. b) result (site_walk folder.now) (T.folder tree.old) (T.folder tree.new) }
    ensures told { IfSome (T.folder tree.old).told
        (λ files. ReadsTold (λ b. b) result (end_over files (site_walk folder.now))) }
{
    read_bundle_in(rt, alloc, tree, folder)
}

#[tactic(auto, unfolding(crate::specs::FolderSites::site_walk))]
fn read_bundle_in<T: Tree, R: Threads>(
    rt: &R,
    alloc: Global,
    tree: &mut T,
    folder: &Text,
) -> Result<Bundle, BundleStop>
    ensures { Goes (λ b. b) result (site_walk folder.now) (T.folder tree.old) (T.folder tree.new) }
{
    let front = folder_front(alloc, folder.as_str())?;
    let gathered = read_files(alloc, tree, front.as_str())?;
    bundle_with(rt, alloc, gathered)
}

#[tactic(auto, unfolding(crate::specs::FolderSites::files_walk))]
fn read_files<T: Tree>(alloc: Global, tree: &mut T, front: &str) -> Result<Gathered, BundleStop>
    ensures { Goes (λ g. g) result (files_walk front.now) (T.folder tree.old) (T.folder tree.new) }
{
    let mut gathered = Gathered::new(alloc);
    read_folder(alloc, tree, MOST_LEVELS, front, "data/", &mut gathered)?;
    read_folder(alloc, tree, MOST_LEVELS, front, "global/", &mut gathered)?;
    read_site_file(alloc, tree, front, "hiera.yaml", &mut gathered)?;
    read_machine_file(alloc, tree, front, "machine.json", &mut gathered)?;
    read_main(alloc, tree, front, &mut gathered)?;
    read_folder(alloc, tree, MOST_LEVELS, front, "modules/", &mut gathered)?;
    read_nodes_folder(alloc, tree, front, &mut gathered)?;
    Ok(gathered)
}

fn read_main<T: Tree>(
    alloc: Global,
    tree: &mut T,
    front: &str,
    gathered: &mut Gathered,
) -> Result<(), BundleStop>
    ensures { Goes (λ done. gathered.new) result (main_walk front.now gathered.old) (T.folder tree.old)
        (T.folder tree.new) }
{
    read_site_file(alloc, tree, front, MAIN_MANIFEST, gathered)?;
    with_main(alloc, gathered)
}

fn with_main(alloc: Global, gathered: &Gathered) -> Result<(), BundleStop>
    ensures reads { ReadsAs (λ done. gathered.now) result (with_main gathered.now) }
    ensures main { IfOk result (λ done. IsSome (find text_cmp MAIN.now gathered.now.files.manifests)) }
{
    let main = Text::from_str(alloc, MAIN_MANIFEST)?;
    if lacks_main(&gathered.files, &main) {
        return Err(bad_shape(alloc, MAIN_MANIFEST));
    }
    Ok(())
}

fn bundle_with<R: Threads>(rt: &R, alloc: Global, gathered: Gathered) -> Result<Bundle, BundleStop>
    ensures { Reads result (bundle_with gathered) }
{
    with_main(alloc, &gathered)?;
    let Gathered {
        files,
        nodes,
        machine,
        count: _count,
        size: _size,
    } = gathered;
    let KeptFiles { manifests, data } = files;
    let site = site_with(rt, alloc, manifests, data, nodes)?;
    Ok(Bundle {
        site,
        requests: Requests::new(alloc),
        machine,
    })
}
