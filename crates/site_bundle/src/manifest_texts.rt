//! The texts of manifests that are still to be parsed.
ghost use Rattle.std.specs.Prelude.{◌≡◌, ◌+◌, ◌^◌, ◌<◌, [], length, is_ok, if◌then◌else◌, IfOk, option_map};
ghost use Rattle.std.specs.FinMap.{find, put};
ghost use Rattle.pp_values.specs.Rising.{text_cmp};
ghost use Rattle.site_bundle.specs.Listing.{AreShort};
ghost use Rattle.site_bundle.specs.SiteView.{put_in};

use crate::manifest::Manifest;
use pp_values::{Memory, Text};
use std::alloc::Global;
use std::collections::BTreeMap;
use std::marker::Model;

/// Manifests by path in byte order, none of which is parsed yet. A contract sees their paths and texts.
#[derive(Drop)]
pub struct ManifestTexts {
    by_path: BTreeMap<Text, Text>,
}

impl Model for ManifestTexts {
    ghost use Rattle.std.specs.Prelude.{List, IsTrue};
    ghost use Rattle.site_bundle.specs.SiteView.{Filed, are_rising};
    ghost use Rattle.site_bundle.specs.Listing.{AreShort};

    ghost Value = { List Filed };

    ghost view = { λ t. t.by_path.entries };

    ghost invariant = { λ t. IsTrue (are_rising t.by_path.entries) × AreShort t.by_path.entries };
}

impl ManifestTexts {
    pub fn new(alloc: Global) -> ManifestTexts
        ensures { result ≡ [] }
    {
        ManifestTexts {
            by_path: BTreeMap::new(alloc),
        }
    }

    /// Puts a manifest in place of what stood at its path. Where there is no memory, the manifests stay as they were.
    pub fn put(&mut self, path: Text, text: Text) -> Result<(), Memory>
        // Places count lines in 32 bits.
        requires { length text + 1 < 2 ^ 32 }
        ensures { self.new ≡ (if is_ok result then put text_cmp path text self.old else self.old) }
    {
        drop(self.by_path.insert(path, text)?);
        Ok(())
    }

    /// How many manifests there are.
    pub fn len(&self) -> usize
        ensures { result ≡ length self.now }
    {
        self.by_path.len()
    }

    /// The text of the manifest at this path.
    pub fn get(&self, path: &Text) -> Option<&Text>
        ensures { option_map (λ text. text.now) result ≡ find text_cmp path.now self.now }
    {
        self.by_path.get(path)
    }

    /// The manifests by path in byte order, still to be parsed.
    pub fn into_manifests(self, alloc: Global) -> Result<Vec<Manifest>, Memory>
        ensures { IfOk result (λ manifests. put_in [] manifests.items ≡ self) }
    {
        let ManifestTexts { by_path } = self;
        let manifests = each_manifest(alloc, by_path)?;
        Ok(manifests)
    }
}

/// A manifest for each text.
fn each_manifest(alloc: Global, by_path: BTreeMap<Text, Text>) -> Result<Vec<Manifest>, Memory>
    requires { AreShort by_path.entries }
    ensures { IfOk result (λ manifests. manifests.items ≡ by_path.entries) }
{
    let mut manifests = Vec::with_capacity(alloc, by_path.len())?;
    for (path, text) in by_path {
        manifests.push(Manifest::new(alloc, path, text))?;
    }
    Ok(manifests)
}
