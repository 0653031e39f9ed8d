//! Manifests that are parsed, one after another or side by side.
ghost use Rattle.std.specs.Prelude.{◌≡◌, IfOk};

use crate::manifest::Manifest;
use crate::manifest_texts::ManifestTexts;
use crate::site_files::SiteFiles;
use pp_values::Memory;
use std::alloc::Global;
use std::thread::Threads;
use work_pool::run_all;

/// How many bytes of manifests are parsed in less time than threads take to start.
const FEW_BYTES: usize = 65_536;

/// The manifests, parsed side by side where threads can be had and there is enough to parse.
///
/// Memory that is wanting on a thread is asked for once more on the calling one.
pub fn parse_all<R: Threads>(
    rt: &R,
    alloc: Global,
    texts: ManifestTexts,
) -> Result<SiteFiles, Memory>
    ensures { IfOk result (λ files. files ≡ texts) }
{
    let manifests = texts.into_manifests(alloc)?;
    let parsed = parse_on_threads(rt, alloc, manifests)?;
    let files = SiteFiles::of(alloc, parsed)?;
    Ok(files)
}

/// The manifests, parsed one after another.
pub fn parse_in_turn(alloc: Global, texts: ManifestTexts) -> Result<SiteFiles, Memory>
    ensures { IfOk result (λ files. files ≡ texts) }
{
    let manifests = texts.into_manifests(alloc)?;
    let files = SiteFiles::of(alloc, manifests)?;
    Ok(files)
}

/// Parses the manifests on threads, where it is worth it.
fn parse_on_threads<R: Threads>(
    rt: &R,
    alloc: Global,
    manifests: Vec<Manifest>,
) -> Result<Vec<Manifest>, Memory>
    ensures { IfOk result (λ done. done.items ≡ manifests.items) }
{
    if manifests.len() < 2 || have_few_bytes(manifests.as_slice()) {
        return Ok(manifests);
    }
    let parsed = run_all(rt, alloc, manifests)?;
    Ok(parsed)
}

/// Whether the manifests are short together.
fn have_few_bytes(manifests: &[Manifest]) -> bool {
    let mut bytes: usize = 0;
    let mut left = manifests;
    while let [manifest, after @ ..] = left {
        bytes = bytes.saturating_add(manifest.len());
        left = after;
    }
    bytes < FEW_BYTES
}
