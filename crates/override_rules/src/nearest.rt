//! The nearest default statement on the way out from a scope.
ghost use Rattle.std.specs.Prelude.{◌≡◌, Some, option_map};
ghost use Rattle.pp_values.specs.Views.{view};
ghost use Rattle.override_rules.specs.Defaults.{nearest as nearest_meant};

use crate::defaults::Defaults;
use crate::scopes::Scopes;
use pp_values::{Kind, Text, Value};

/// The default for the kind and name that is nearest to the scope. Where there is none for the kind, the way out is not
/// gone.
pub fn nearest<'a>(
    scopes: &Scopes,
    defaults: &'a Defaults,
    kind: &Kind,
    name: &Text,
    scope: u32,
) -> Option<&'a Value>
    ensures { option_map (λ v. view v.now) result ≡ nearest_meant scopes.now defaults.now kind.now name.now scope }
{
    if defaults.has_none(kind) {
        return None;
    }
    nearest_outward(scopes, defaults, kind, name, scope)
}

fn nearest_outward<'a>(
    scopes: &Scopes,
    defaults: &'a Defaults,
    kind: &Kind,
    name: &Text,
    scope: u32,
) -> Option<&'a Value>
    ensures { option_map (λ v. view v.now) result ≡ nearest_meant scopes.now defaults.now kind.now name.now scope }
{
    let mut wanted = scope;
    let mut left = scopes.len();
    while left > 0 {
        left -= 1;
        match scopes.parent(wanted) {
            None => return None,
            Some(parent) => {
                if let Some(value) = defaults.get(kind, wanted, name) {
                    return Some(value);
                }
                match parent {
                    None => return None,
                    Some(outer) => wanted = outer,
                }
            }
        }
    }
    None
}
