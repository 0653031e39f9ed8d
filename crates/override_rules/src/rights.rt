//! Which line may set or change an attribute.
ghost use Rattle.std.specs.Prelude.{◌≡◌};
ghost use Rattle.pp_values.specs.Rising.{has_text};
ghost use Rattle.override_rules.specs.Rights.{may as may_meant};

use crate::override_line::Right;
use pp_values::Text;

/// Whether a line of this right may touch an attribute, set already or not, of a resource of this source.
pub fn may(right: &Right, source: &Text, set: bool) -> bool
    ensures { result ≡ may_meant right.now source.now set }
{
    match right {
        Right::Any => true,
        Right::From(own, above) => { contains(above.as_slice(), source) || (!set && own == source) }
    }
}

fn contains(texts: &[Text], text: &Text) -> bool
    ensures { result ≡ has_text texts.now text.now }
{
    texts.iter().any(|t| text == t)
}
