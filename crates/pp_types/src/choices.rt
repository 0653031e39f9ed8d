//! The types of a `Variant` or a `Tuple`, by their places.
ghost use Rattle.std.specs.Prelude.{◌≡◌, ◌<◌, [], ◌∷◌, length, map, slice_get};
ghost use Rattle.pp_values.specs.PTypes.{sorts};
ghost use Rattle.pp_types.specs.Forms as f;
ghost use Rattle.pp_types.specs.Forms.{form, list_of, all_arrays, all_hashes};
ghost use Rattle.pp_types.specs.Ranges.{all_integers, any_count};
ghost use Rattle.pp_types.specs.Layers.{choice_forms, seen_form};

use crate::layer::Choices;
use crate::seen::Seen;
use pp_values::PType;

pub fn choice_count(choices: Choices<'_>) -> usize
    ensures { result ≡ length (list_of (choice_forms choices.entry)) }
{
    match choices {
        Choices::Given(types) => types.len(),
        Choices::OrUndef(_) => 2,
        Choices::Scalar => 3,
        Choices::Collection => 2,
    }
}

pub fn choice_at<'a>(choices: Choices<'a>, place: usize) -> Seen<'a>
    requires { place < length (list_of (choice_forms choices)) }
    ensures { slice_get (list_of (choice_forms choices.entry)) place ≡ Some (seen_form result) }
{
    match choices {
        Choices::Given(types) => given_at(types.as_slice(), place),
        Choices::OrUndef(inner) => or_undef_at(inner, place),
        Choices::Scalar => scalar_at(place),
        Choices::Collection => collection_at(place),
    }
}

fn given_at<'a>(types: &'a [PType], place: usize) -> Seen<'a>
    requires { place < length types.now }
    ensures { slice_get (map form (sorts types.now)) place ≡ Some (seen_form result) }
{
    Seen::Given(&types[place])
}

fn or_undef_at<'a>(inner: Seen<'a>, place: usize) -> Seen<'a>
    requires { place < 2 }
    ensures { slice_get (f.undef ∷ seen_form inner.entry ∷ []) place ≡ Some (seen_form result) }
{
    match place {
        0 => Seen::Undef,
        _ => inner,
    }
}

fn scalar_at(place: usize) -> Seen<'static>
    requires { place < 3 }
    ensures { slice_get (f.boolean ∷ f.integer all_integers ∷ f.string any_count ∷ []) place ≡ Some (seen_form result) }
{
    match place {
        0 => Seen::Boolean,
        1 => Seen::Integer,
        _ => Seen::String,
    }
}

fn collection_at(place: usize) -> Seen<'static>
    requires { place < 2 }
    ensures { slice_get (all_arrays ∷ all_hashes ∷ []) place ≡ Some (seen_form result) }
{
    match place {
        0 => Seen::Array,
        _ => Seen::Hash,
    }
}
