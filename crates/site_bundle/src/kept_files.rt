//! The files of a site, of either kind.
ghost use Rattle.std.specs.Prelude.{◌≡◌, ◌+◌, ◌^◌, ◌<◌, length, is_ok, if◌then◌else◌};
ghost use Rattle.site_bundle.specs.Files.{has_room};
ghost use Rattle.site_bundle.specs.Given.{is_manifest_path};
ghost use Rattle.site_bundle.specs.Keeping.{no_files, with_text};

use crate::limits::MOST_FILES;
use crate::manifest_texts::ManifestTexts;
use hiera_config::SiteData;
use pp_values::{Memory, Text};
use std::alloc::Global;

/// Manifests, which are still to be parsed, and the other files, which are a site's data.
#[derive(Drop)]
pub struct KeptFiles {
    pub manifests: ManifestTexts,
    pub data: SiteData,
}

impl KeptFiles {
    pub fn new(alloc: Global) -> KeptFiles
        ensures { result ≡ no_files }
    {
        KeptFiles {
            manifests: ManifestTexts::new(alloc),
            data: SiteData::new(alloc),
        }
    }

    /// Puts a file in place of what stood at its path. Where there is no memory, the files stay as they were.
    pub fn keep(&mut self, alloc: Global, path: Text, text: Text) -> Result<(), Memory>
        // Places count lines in 32 bits.
        requires { length text + 1 < 2 ^ 32 }
        ensures { self.new ≡ (if is_ok result then with_text path text self.old else self.old) }
    {
        if is_manifest_path(path.as_str().as_bytes()) {
            self.manifests.put(path, text)
        } else {
            self.data.read(alloc, path, text)
        }
    }

    /// Whether one more file may come.
    pub fn has_room(&self) -> bool
        ensures { result ≡ has_room self.now }
    {
        let left = MOST_FILES.saturating_sub(self.manifests.len());
        self.data.as_map().len() < left
    }
}

/// Whether the file at this path is a manifest: its path ends in `.pp`.
fn is_manifest_path(path: &[u8]) -> bool
    ensures { result ≡ is_manifest_path path.now }
{
    let front = path.len().saturating_sub(3);
    &path[front..] == b".pp".as_slice()
}
