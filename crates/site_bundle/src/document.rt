//! The JSON value that a bundle is.
ghost use Rattle.serde_json.specs.View.{view};
ghost use Rattle.site_bundle.specs.Refusals.{ReadsAs};
ghost use Rattle.site_bundle.specs.Documents.{json_of, document_of};

use crate::bundle_stop::BundleStop;
use crate::limits::MOST_BUNDLE_BYTES;
use crate::refusing::too_large;
use serde_json::Value;
use std::alloc::Global;

pub fn read_document(alloc: Global, bytes: &[u8]) -> Result<Value, BundleStop>
    ensures { ReadsAs view result (document_of bytes.now) }
{
    if bytes.len() <= MOST_BUNDLE_BYTES {
        parse(alloc, bytes)
    } else {
        Err(too_large(alloc, "bundle"))
    }
}

/// The JSON that the bytes are.
pub fn parse(alloc: Global, bytes: &[u8]) -> Result<Value, BundleStop>
    ensures { ReadsAs view result (json_of bytes.now) }
{
    match Value::from_slice(alloc, bytes) {
        Ok(value) => Ok(value),
        Err(error) if error.is_memory() => Err(BundleStop::Memory),
        Err(_) => Err(BundleStop::NotJson),
    }
}
