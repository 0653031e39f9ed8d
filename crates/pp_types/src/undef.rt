//! Whether a data type accepts Undef.
ghost use Rattle.std.specs.Prelude.{◌≡◌};
ghost use Rattle.std.specs.List.{list_any};
ghost use Rattle.pp_types.specs.Forms.{list_of};
ghost use Rattle.pp_types.specs.Layers.{choice_forms, seen_form};
ghost use Rattle.pp_types.specs.Rules.{accepts_undef};

use crate::choices::{choice_at, choice_count};
use crate::layer::{Choices, Layer, layer_of};
use crate::seen::Seen;

#[cycle(accepts_undef)]
pub fn accepts_undef(seen: Seen<'_>) -> bool
    ensures { result ≡ accepts_undef (seen_form seen.entry) }
{
    match layer_of(seen) {
        Layer::Any => true,
        Layer::Undef => true,
        Layer::Data => true,
        Layer::Variant(choices) => some_accepts_undef(choices),
        _ => false,
    }
}

#[cycle(accepts_undef)]
fn some_accepts_undef(choices: Choices<'_>) -> bool
    ensures { result ≡ list_any accepts_undef (list_of (choice_forms choices.entry)) }
{
    for place in 0..choice_count(choices) {
        if accepts_undef(choice_at(choices, place)) {
            return true;
        }
    }
    false
}
