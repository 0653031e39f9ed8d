//! Values by name.
ghost use Rattle.std.specs.Prelude.{◌≡◌, [], is_ok, if◌then◌else◌, option_copied};
ghost use Rattle.std.specs.Str.{str_eq_ignore_ascii_case};
ghost use Rattle.scope_core.specs.Names.{value_of, folded_value_of, with_value};

use pp_values::{Memory, Text};
use std::alloc::Global;
use std::collections::BTreeMap;
use std::marker::Model;

/// Values by name, in the byte order of the names.
#[derive(Drop)]
pub struct Named<T: Drop> {
    map: BTreeMap<Vec<u8>, T>,
}

impl<T: Drop> Model for Named<T> {
    ghost use Rattle.std.specs.Prelude.{ℕ, List};
    ghost use Rattle.std.specs.Coded.{coded×, coded_list};
    ghost use Rattle.pp_values.specs.Codes.{coded_text};

    ghost Value = { List (List ℕ × T) };

    ghost coded = { coded_list (coded× coded_text T.code) };

    ghost use Rattle.scope_core.specs.Keyed.{keyed};

    ghost view = { λ n. keyed n.map.entries };
}

impl<T: Drop> Named<T> {
    pub fn new(alloc: Global) -> Named<T>
        ensures { result ≡ [] }
    {
        Named {
            map: BTreeMap::new(alloc),
        }
    }

    pub fn get(&self, name: &[u8]) -> Option<&T>
        ensures { option_copied result ≡ value_of name.now self.now }
    {
        self.map.get(name)
    }

    /// The value of the first name that is this one but for the case of ASCII letters. It goes through all names.
    pub fn get_folded(&self, name: &[u8]) -> Option<&T>
        ensures { option_copied result ≡ folded_value_of name.now self.now }
    {
        for (other, value) in &self.map {
            if name.eq_ignore_ascii_case(other.as_slice()) {
                return Some(value);
            }
        }
        None
    }

    /// Sets the value of a name. Where there is no memory, all stays as it was.
    pub fn set(&mut self, alloc: Global, name: Text, value: T) -> Result<(), Memory>
        ensures { self.new ≡ (if is_ok result then with_value name value self.old else self.old) }
    {
        let name = name.into_string(alloc)?;
        drop(self.map.insert(name.into_bytes(), value)?);
        Ok(())
    }
}
