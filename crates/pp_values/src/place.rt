ghost use Rattle.std.specs.Prelude.{◌≡◌, IfOk};

use crate::memory::Memory;
use crate::text::Text;
use std::alloc::Global;

/// The path of the main manifest in a site.
pub const MAIN_MANIFEST: &str = "manifests/site.pp";

/// A line of a file. Lines count from 1.
#[derive(Debug, Drop, PartialEq, Eq)]
pub struct Place {
    pub file: Text,
    pub line: u32,
}

impl Place {
    pub fn copy(&self, alloc: Global) -> Result<Place, Memory>
        ensures { IfOk result (λ p. p ≡ self.now) }
    {
        Ok(Place {
            file: self.file.copy(alloc)?,
            line: self.line,
        })
    }
}
