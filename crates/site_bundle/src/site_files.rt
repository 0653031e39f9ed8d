//! The manifests of a site, each with what was read of it.
ghost use Rattle.std.specs.Prelude.{◌≡◌, [], length, is_ok, if◌then◌else◌, IsTrue, IfOk, IfSome, option_map};
ghost use Rattle.std.specs.FinMap.{find, put};
ghost use Rattle.pp_parser.specs.Manifest.{file_of};
ghost use Rattle.pp_values.specs.Rising.{text_cmp};
ghost use Rattle.site_bundle.specs.Listing.{filed, AreRead};
ghost use Rattle.site_bundle.specs.SiteView.{are_rising, put_in};

use crate::manifest::Manifest;
use pp_tree::ManifestFile;
use pp_values::{Memory, Text};
use std::alloc::Global;
use std::collections::BTreeMap;
use std::marker::Model;

/// Manifests by path in byte order, each read once. A contract sees their paths and texts.
#[derive(Drop)]
pub struct SiteFiles {
    by_path: BTreeMap<Text, ManifestFile>,
}

impl Model for SiteFiles {
    ghost use Rattle.std.specs.Prelude.{List, IsTrue};
    ghost use Rattle.site_bundle.specs.SiteView.{Filed, are_rising};
    ghost use Rattle.site_bundle.specs.Listing.{filed, AreRead};

    ghost Value = { List Filed };

    ghost view = { λ s. filed s.by_path.entries };

    ghost invariant = { λ s. IsTrue (are_rising (filed s.by_path.entries)) × AreRead s.by_path.entries };
}

impl SiteFiles {
    pub fn new(alloc: Global) -> SiteFiles
        ensures { result ≡ [] }
    {
        SiteFiles {
            by_path: BTreeMap::new(alloc),
        }
    }

    /// These manifests, of which the first one counts where a path stands twice.
    pub fn of(alloc: Global, manifests: Vec<Manifest>) -> Result<SiteFiles, Memory>
        ensures { IfOk result (λ files. files ≡ put_in [] manifests.items) }
    {
        let mut files = SiteFiles::new(alloc);
        let mut left = manifests;
        while let Some(manifest) = left.pop() {
            files.put(manifest)?;
        }
        Ok(files)
    }

    /// Puts a manifest in place of what stood at its path. Where there is no memory, the files stay as they were.
    pub fn put(&mut self, manifest: Manifest) -> Result<(), Memory>
        ensures { self.new ≡ (if is_ok result then put text_cmp manifest.0 manifest.1 self.old else self.old) }
    {
        let (path, file) = manifest.into_file()?;
        drop(self.by_path.insert(path, file)?);
        Ok(())
    }

    /// How many manifests there are.
    pub fn len(&self) -> usize
        ensures { result ≡ length self.now }
    {
        self.by_path.len()
    }

    /// The manifest at this path.
    pub fn get(&self, path: &Text) -> Option<&ManifestFile>
        ensures text { option_map (λ f. f.now.text) result ≡ find text_cmp path.now self.now }
        ensures read { IfSome result (λ f. f.now.read ≡ file_of path.now f.now.text) }
    {
        self.by_path.get(path)
    }

    /// All manifests, by path in byte order.
    pub fn as_map(&self) -> &BTreeMap<Text, ManifestFile>
        ensures files { filed result.now.entries ≡ self.now }
        ensures read { AreRead result.now.entries }
        ensures rising { IsTrue (are_rising self.now) }
    {
        &self.by_path
    }
}
