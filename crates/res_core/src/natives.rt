//! Which kinds are native, and what they have.
ghost use Rattle.std.specs.Prelude.{◌≡◌, option_map};
ghost use Rattle.res_core.specs.NativeTypes.{row, native_of, property_of};

use crate::native_table::NATIVE_TYPES;
use crate::native_type::NativeType;
use pp_values::Text;

/// The native type whose kind this is. Any other kind is that of a class or of a definition, or of nothing.
#[tactic(auto, unfolding(crate::specs::NativeTypes::native_of))]
pub fn native(kind: &Text) -> Option<NativeType>
    ensures { result ≡ native_of kind.now }
{
    NATIVE_TYPES
        .iter()
        .copied()
        .find(|native| kind.is(native.row().kind))
}

/// The property that is looked at after so many others.
#[tactic(auto, unfolding(crate::specs::NativeTypes::property_of))]
pub fn property(kind: NativeType, place: u32) -> Option<&'static str>
    ensures { option_map (λ name. name.now) result ≡ property_of kind place }
{
    kind.row().properties.get(place as usize).copied()
}

/// The attribute that names such a resource to the machine. Where it isn't set the title does.
pub fn namevar(kind: NativeType) -> &'static str
    ensures { result.now ≡ (row kind).namevar }
{
    kind.row().namevar
}
