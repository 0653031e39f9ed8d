//! The names of attributes that a kind of resource takes.
ghost use Rattle.std.specs.Prelude.{◌≡◌, []};
ghost use Rattle.pp_values.specs.Rising.{has_text};
ghost use Rattle.res_core.specs.NativeTypes.{attributes_of};

use crate::metaparameters::is_among;
use crate::native_type::NativeType;
use pp_values::{Text, Texts};
use std::alloc::Global;
use std::marker::Model;

/// The names of the attributes that a kind of resource takes besides the metaparameters. Those of a native type stand in
/// its table, and take no memory here.
#[derive(Drop)]
pub struct KnownNames {
    form: NamesForm,
}

#[derive(Drop)]
pub(crate) enum NamesForm {
    Native(NativeType),
    Listed(Texts),
}

impl Model for KnownNames {
    ghost use Rattle.std.specs.Prelude.{ℕ, List};
    ghost use Rattle.res_core.specs.NamesForms.{form_names};

    ghost Value = { List (List ℕ) };

    ghost view = { λ k. form_names k.form };
}

impl KnownNames {
    /// No names.
    pub fn none(alloc: Global) -> KnownNames
        ensures { result ≡ [] }
    {
        KnownNames::listed(Texts::new(alloc))
    }

    /// All attributes of the type but the metaparameters: the properties in order, then the others.
    pub fn of_native(native: NativeType) -> KnownNames
        ensures { result ≡ attributes_of native }
    {
        KnownNames {
            form: NamesForm::Native(native),
        }
    }

    /// These names.
    pub fn listed(names: Texts) -> KnownNames
        ensures { result ≡ names }
    {
        KnownNames {
            form: NamesForm::Listed(names),
        }
    }

    /// Whether this name is one of them.
    pub fn has(&self, name: &Text) -> bool
        ensures { result ≡ has_text self.now name.now }
    {
        match &self.form {
            NamesForm::Native(native) => is_of_native(*native, name),
            NamesForm::Listed(names) => is_listed(names.as_slice(), name),
        }
    }
}

#[tactic(auto, unfolding(crate::specs::NativeTypes::attributes_of))]
fn is_of_native(native: NativeType, name: &Text) -> bool
    ensures { result ≡ has_text (attributes_of native) name.now }
{
    let row = native.row();
    is_among(name, row.properties) || is_among(name, row.others)
}

fn is_listed(names: &[Text], name: &Text) -> bool
    ensures { result ≡ has_text names.now name.now }
{
    names.iter().any(|known| name == known)
}
