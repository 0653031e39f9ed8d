//! The refusals that name a path.
ghost use Rattle.std.specs.Prelude.{◌≡◌, IfOk};
ghost use Rattle.site_bundle.specs.Refusals.{bad_shape, too_large, under, request_path, Tells};

use crate::bundle_stop::BundleStop;
use pp_values::{Memory, Text};
use std::alloc::Global;

/// What stands at this path is not of its kind.
pub fn bad_shape(alloc: Global, path: &str) -> BundleStop
    ensures { Tells result (bad_shape path.now) }
{
    match Text::from_str(alloc, path) {
        Ok(path) => BundleStop::BadShape(path),
        Err(_) => BundleStop::Memory,
    }
}

/// What stands at this path is too long.
pub fn too_large(alloc: Global, path: &str) -> BundleStop
    ensures { Tells result (too_large path.now) }
{
    match Text::from_str(alloc, path) {
        Ok(path) => BundleStop::TooLarge(path),
        Err(_) => BundleStop::Memory,
    }
}

/// What stands at this path under this key is not of its kind.
pub fn bad_member(alloc: Global, path: &str, key: &str) -> BundleStop
    ensures { Tells result (bad_shape (under path.now key.now)) }
{
    match path_under(alloc, path, key) {
        Ok(path) => BundleStop::BadShape(path),
        Err(_) => BundleStop::Memory,
    }
}

fn path_under(alloc: Global, path: &str, key: &str) -> Result<Text, Memory>
    ensures { IfOk result (λ t. t ≡ under path.now key.now) }
{
    let mut text = String::from_str(alloc, path)?;
    text.push_str(".")?;
    text.push_str(key)?;
    Ok(Text::new(text))
}

/// The request with this number, counted from 0, is none.
pub fn bad_request(alloc: Global, index: usize) -> BundleStop
    ensures { Tells result (bad_shape (request_path index)) }
{
    match request_path(alloc, index) {
        Ok(path) => BundleStop::BadShape(path),
        Err(_) => BundleStop::Memory,
    }
}

/// What stands in this request under this key is not of its kind.
pub fn bad_request_member(alloc: Global, index: usize, key: &str) -> BundleStop
    ensures { Tells result (bad_shape (under (request_path index) key.now)) }
{
    match request_path(alloc, index) {
        Ok(path) => bad_member(alloc, path.as_str(), key),
        Err(_) => BundleStop::Memory,
    }
}

fn request_path(alloc: Global, index: usize) -> Result<Text, Memory>
    ensures { IfOk result (λ t. t ≡ request_path index) }
{
    let path = format!(in alloc; "requests.{index}")?;
    Ok(Text::new(path))
}
