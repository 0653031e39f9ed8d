//! Whether two nodes export the same.
ghost use Rattle.std.specs.Prelude.{◌≡◌, option_copied};
ghost use Rattle.history_tools.specs.SameSets.{same_choice};

use export_store::is_same_set;
use res_core::ExportSet;

/// Whether two nodes have the same set, or neither has one.
pub fn is_same_choice(a: Option<&ExportSet>, b: Option<&ExportSet>) -> bool
    ensures { result ≡ same_choice (option_copied a.entry) (option_copied b.entry) }
{
    match (a, b) {
        (None, None) => true,
        (Some(a), Some(b)) => is_same_set(a, b),
        _ => false,
    }
}
