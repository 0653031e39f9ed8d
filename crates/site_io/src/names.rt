//! The names of files and folders.
ghost use Rattle.std.specs.Prelude.{◌≡◌, ◌++◌, codes, option_map, IfOk, OnOk};
ghost use Rattle.pp_values.specs.Rising.{with_texts};
ghost use Rattle.site_io.specs.Folders.{ends_in_slash, folder_front, after_front, first_name, name_in, name_behind};

use pp_values::{Memory, Text, Texts};
use std::alloc::Global;
use std::collections::BTreeSet;

/// Whether this is the name or the path of a folder.
pub fn ends_in_slash(path: &str) -> bool
    ensures { result ≡ ends_in_slash path.now }
{
    path.as_bytes().ends_with(b"/".as_slice())
}

/// The name of a folder, a `/` at its end.
pub(crate) fn folder_name(alloc: Global, name: &str) -> Result<Text, Memory>
    ensures { IfOk result (λ t. t ≡ name.now ++ codes "/") }
{
    let mut text = String::from_str(alloc, name)?;
    text.push_str("/")?;
    Ok(Text::new(text))
}

/// What all paths in a folder begin with: its own path, and a `/` unless it is empty or ends in one.
pub fn folder_front(alloc: Global, path: &str) -> Result<Text, Memory>
    ensures { IfOk result (λ t. t ≡ folder_front path.now) }
{
    if path.len() == 0 || ends_in_slash(path) {
        Text::from_str(alloc, path)
    } else {
        folder_name(alloc, path)
    }
}

/// Puts the name by which the path lies behind the front among the names, if it does.
pub(crate) fn put_name(
    alloc: Global,
    front: &str,
    path: &str,
    names: &mut BTreeSet<Text>,
) -> Result<(), Memory>
    ensures { OnOk result (names.new.keys ≡ with_texts names.old.keys (name_behind front.now path.now)) }
{
    match after_front(path, front) {
        Some(rest) => put_first(alloc, rest, names),
        None => Ok(()),
    }
}

fn put_first(alloc: Global, path: &str, names: &mut BTreeSet<Text>) -> Result<(), Memory>
    ensures { OnOk result (names.new.keys ≡ with_texts names.old.keys (name_in path.now)) }
{
    if path.len() == 0 {
        return Ok(());
    }
    names.insert(first_name(alloc, path)?)?;
    Ok(())
}

/// What stands behind a front, if the path begins with it.
pub fn after_front<'a>(path: &'a str, front: &str) -> Option<&'a str>
    ensures { option_map (λ t. t.now) result ≡ after_front front.now path.now }
{
    path.strip_prefix(front)
}

fn first_name(alloc: Global, path: &str) -> Result<Text, Memory>
    ensures { IfOk result (λ t. t ≡ first_name path.now) }
{
    match path.split_once('/') {
        Some((folder, _)) => folder_name(alloc, folder),
        None => Text::from_str(alloc, path),
    }
}

/// The names in byte order.
pub(crate) fn texts_of(alloc: Global, names: BTreeSet<Text>) -> Result<Texts, Memory>
    ensures { IfOk result (λ texts. texts ≡ names.keys) }
{
    let mut texts = Vec::with_capacity(alloc, names.len())?;
    for name in names {
        texts.push(name)?;
    }
    Ok(Texts::from_vec(texts))
}
