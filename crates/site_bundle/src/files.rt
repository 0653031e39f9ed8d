//! The files of a bundle.
ghost use Rattle.std.specs.Prelude.{◌≡◌, ◌≤◌, IfOk, IsSome, length};
ghost use Rattle.std.specs.FinMap.{find};
ghost use Rattle.pp_values.specs.Rising.{text_cmp};
ghost use Rattle.pp_values.specs.declared.place.TheConstants.{MAIN_MANIFEST as MAIN};
ghost use Rattle.serde_json.specs.View.{view, members_view};
ghost use Rattle.site_bundle.specs.Keeping.{no_files};
ghost use Rattle.site_bundle.specs.Refusals.{Reads, ReadsAs};
ghost use Rattle.site_bundle.specs.Files.{short_text, content_of, with_file, with_files, lacks_main, is_passed};
ghost use Rattle.site_bundle.specs.Files.{files_of};

use crate::bundle_stop::BundleStop;
use crate::kept_files::KeptFiles;
use crate::limits::MOST_FILE_BYTES;
use crate::refusing::{bad_member, bad_shape, too_large};
use pp_values::{MAIN_MANIFEST, Text};
use serde_json::{Map, Value};
use std::alloc::Global;
use std::cmp::Ordering;

/// The files of a bundle, the main manifest among them.
pub fn read_files(alloc: Global, bundle: &Value) -> Result<KeptFiles, BundleStop>
    ensures files { Reads result (files_of (view bundle.now)) }
    ensures main { IfOk result (λ fs. IsSome (find text_cmp MAIN.now fs.manifests)) }
{
    match bundle.get("files").and_then(Value::as_object) {
        Some(files) => files_among(alloc, files),
        None => Err(bad_shape(alloc, "files")),
    }
}

/// The files come by path in byte order.
fn files_among(alloc: Global, members: &Map<String, Value>) -> Result<KeptFiles, BundleStop>
    ensures files { Reads result (with_files (members_view members.now.entries) no_files) }
    ensures main { IfOk result (λ fs. IsSome (find text_cmp MAIN.now fs.manifests)) }
{
    let main = Text::from_str(alloc, MAIN_MANIFEST)?;
    let mut files = KeptFiles::new(alloc);
    for (path, content) in members {
        if is_passed(&files, &main, path.as_str()) {
            return Err(bad_member(alloc, "files", MAIN_MANIFEST));
        }
        with_file(alloc, path.as_str(), content, &mut files)?;
    }
    if lacks_main(&files, &main) {
        return Err(bad_member(alloc, "files", MAIN_MANIFEST));
    }
    Ok(files)
}

/// Whether the path stands behind that of the main manifest, which did not come.
fn is_passed(files: &KeptFiles, main: &Text, path: &str) -> bool
    requires { main.now ≡ MAIN.now }
    ensures { result ≡ is_passed files.now path.now }
{
    match path.cmp(MAIN_MANIFEST) {
        Ordering::Less => false,
        Ordering::Equal => false,
        Ordering::Greater => lacks_main(files, main),
    }
}

pub fn lacks_main(files: &KeptFiles, main: &Text) -> bool
    requires { main.now ≡ MAIN.now }
    ensures { result ≡ lacks_main files.now }
{
    match files.manifests.get(main) {
        Some(_) => false,
        None => true,
    }
}

fn with_file(
    alloc: Global,
    path: &str,
    content: &Value,
    files: &mut KeptFiles,
) -> Result<(), BundleStop>
    ensures { ReadsAs (λ done. files.new) result (with_file files.old path.now (view content.now)) }
{
    if !files.has_room() {
        return Err(too_large(alloc, path));
    }
    let text = content_of(alloc, path, content)?;
    let path = Text::from_str(alloc, path)?;
    files.keep(alloc, path, text)?;
    Ok(())
}

fn content_of(alloc: Global, path: &str, content: &Value) -> Result<Text, BundleStop>
    ensures text { Reads result (content_of path.now (view content.now)) }
    ensures short { IfOk result (λ t. length t ≤ MOST_FILE_BYTES) }
{
    match content.as_str() {
        Some(text) => short_text(alloc, path, text),
        None => Err(bad_member(alloc, "files", path)),
    }
}

fn short_text(alloc: Global, path: &str, text: &str) -> Result<Text, BundleStop>
    ensures text { Reads result (short_text path.now text.now) }
    ensures short { IfOk result (λ t. length t ≤ MOST_FILE_BYTES) }
{
    if text.len() <= MOST_FILE_BYTES {
        Ok(Text::from_str(alloc, text)?)
    } else {
        Err(too_large(alloc, path))
    }
}
