//! What a command works on, and why it was not had.
ghost use Rattle.std.specs.Prelude.{◌≡◌, ◌≤◌, IfOk, IfErr, IsTrue, length, option_map};
ghost use Rattle.res_core.specs.AskedFacts.{give_facts};
ghost use Rattle.site_bundle.specs.declared.limits.TheConstants.{MOST_FILE_BYTES, MOST_REQUESTS};
ghost use Rattle.site_commands.specs.Inputs.{HasInput, HasStoppedBy, ReadsBundle, site_from};
ghost use Rattle.site_commands.specs.Inputs as read;

use pp_values::Text;
use site_bundle::{Bundle, BundleStop, MOST_BUNDLE_BYTES, MOST_FILE_BYTES, read_bundle, read_site};
use site_io::{Bytes, ReadStop, Source, Tree, read_all};
use std::alloc::Global;
use std::thread::Threads;

/// Why a command has no input.
#[derive(Drop)]
pub enum InputStop {
    /// The source was not read to its end.
    Unread(ReadStop),

    /// What was read is not what the command reads, or the tree of files failed, or memory was wanting.
    Refused(BundleStop),

    /// The line with this number, in decimal digits, is the first one that is not as in a journal.
    BadLine(Text),

    /// The journal has more entries than a history may have.
    TooManyEntries,
}

/// Reads a manifest from the source.
pub fn take_manifest<S: Source>(alloc: Global, source: &mut S) -> Result<Bytes, InputStop>
    ensures all { IfOk result (λ bytes. (f : _) →
        HasInput read.manifest (read.bytes bytes) (S.stream source.old) (S.stream source.new) f f) }
    ensures stop { IfErr result (λ stop. (f : _) →
        HasStoppedBy stop read.manifest (S.stream source.old) (S.stream source.new) f f) }
    ensures fits { IfOk result (λ bytes. length bytes ≤ MOST_FILE_BYTES) }
{
    match read_all(alloc, source, MOST_FILE_BYTES) {
        Ok(bytes) => Ok(bytes),
        Err(stop) => Err(InputStop::Unread(stop)),
    }
}

/// Takes the bundle from the source, or what the folder at a path has as one.
pub fn take_bundle<S: Source, T: Tree, R: Threads>(
    rt: &R,
    alloc: Global,
    dir: Option<&str>,
    source: &mut S,
    tree: &mut T,
) -> Result<Bundle, InputStop>
    ensures all { IfOk result (λ bundle. HasInput (site_from (option_map (λ d. d.now) dir.entry)) (read.site bundle)
        (S.stream source.old) (S.stream source.new) (T.folder tree.old) (T.folder tree.new)) }
    ensures stop { IfErr result (λ stop. HasStoppedBy stop (site_from (option_map (λ d. d.now) dir.entry))
        (S.stream source.old) (S.stream source.new) (T.folder tree.old) (T.folder tree.new)) }
{
    match dir {
        Some(dir) => take_folder(rt, alloc, dir, tree),
        None => take_source(rt, alloc, source),
    }
}

/// Takes what the folder at a path has as a bundle, of which nothing is asked.
pub fn take_folder<T: Tree, R: Threads>(
    rt: &R,
    alloc: Global,
    dir: &str,
    tree: &mut T,
) -> Result<Bundle, InputStop>
    ensures all { IfOk result (λ bundle. (s : _) → HasInput (read.folder dir.now) (read.site bundle) s s
        (T.folder tree.old) (T.folder tree.new)) }
    ensures stop { IfErr result (λ stop. (s : _) → HasStoppedBy stop (read.folder dir.now) s s
        (T.folder tree.old) (T.folder tree.new)) }
{
    match Text::from_str(alloc, dir) {
        Ok(dir) => read_folder(rt, alloc, &dir, tree),
        Err(_) => Err(InputStop::Refused(BundleStop::Memory)),
    }
}

fn read_folder<T: Tree, R: Threads>(
    rt: &R,
    alloc: Global,
    dir: &Text,
    tree: &mut T,
) -> Result<Bundle, InputStop>
    ensures all { IfOk result (λ bundle. (s : _) → HasInput (read.folder dir.now) (read.site bundle) s s
        (T.folder tree.old) (T.folder tree.new)) }
    ensures stop { IfErr result (λ stop. (s : _) → HasStoppedBy stop (read.folder dir.now) s s
        (T.folder tree.old) (T.folder tree.new)) }
{
    match read_site(rt, alloc, tree, dir) {
        Ok(bundle) => Ok(bundle),
        Err(stop) => Err(InputStop::Refused(stop)),
    }
}

/// Takes the bundle from the source.
pub fn take_source<S: Source, R: Threads>(
    rt: &R,
    alloc: Global,
    source: &mut S,
) -> Result<Bundle, InputStop>
    ensures all { IfOk result (λ bundle. (f : _) → HasInput read.bundle (read.site bundle)
        (S.stream source.old) (S.stream source.new) f f) }
    ensures stop { IfErr result (λ stop. (f : _) → HasStoppedBy stop read.bundle
        (S.stream source.old) (S.stream source.new) f f) }
    ensures facts { IfOk result (λ bundle. IsTrue (give_facts bundle.requests)) }
    ensures few { IfOk result (λ bundle. length bundle.requests ≤ MOST_REQUESTS) }
{
    match read_all(alloc, source, MOST_BUNDLE_BYTES) {
        Ok(bytes) => parse_bundle(rt, alloc, &bytes),
        Err(stop) => Err(InputStop::Unread(stop)),
    }
}

fn parse_bundle<R: Threads>(rt: &R, alloc: Global, bytes: &Bytes) -> Result<Bundle, InputStop>
    ensures bundle { ReadsBundle result bytes.now }
    ensures facts { IfOk result (λ bundle. IsTrue (give_facts bundle.requests)) }
    ensures few { IfOk result (λ bundle. length bundle.requests ≤ MOST_REQUESTS) }
{
    match read_bundle(rt, alloc, bytes.as_slice()) {
        Ok(bundle) => Ok(bundle),
        Err(stop) => Err(InputStop::Refused(stop)),
    }
}
