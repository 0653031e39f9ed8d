ghost use Rattle.std.specs.Prelude.{◌≡◌, ◌++◌, IfOk};
ghost use Rattle.site_bundle.specs.Refusals.{stop_line};

use crate::bundle_stop::BundleStop;
use pp_values::{Memory, Text};
use std::alloc::Global;

/// The line that tells why no bundle was read, without a line feed: `B1`, `B2 PATH`, `B3 PATH` or `tree fault
/// PATH`. Want of memory is
/// `memory`.
pub fn stop_text(alloc: Global, stop: &BundleStop) -> Result<Text, Memory>
    ensures { IfOk result (λ t. t ≡ stop_line stop.now) }
{
    match stop {
        BundleStop::NotJson => Text::from_str(alloc, "B1"),
        BundleStop::BadShape(path) => joined(alloc, "B2 ", path),
        BundleStop::TooLarge(path) => joined(alloc, "B3 ", path),
        BundleStop::TreeFault(path) => joined(alloc, "tree fault ", path),
        BundleStop::Memory => Text::from_str(alloc, "memory"),
    }
}

fn joined(alloc: Global, word: &str, path: &Text) -> Result<Text, Memory>
    ensures { IfOk result (λ t. t ≡ word.now ++ path.now) }
{
    let mut line = String::from_str(alloc, word)?;
    line.push_str(path.as_str())?;
    Ok(Text::new(line))
}
