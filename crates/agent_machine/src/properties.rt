ghost use Rattle.std.specs.Prelude.{◌≡◌, [], if◌then◌else◌, is_ok, IsTrue, IfOk, option_map};
ghost use Rattle.std.specs.FinMap.{find, put};
ghost use Rattle.pp_values.specs.Plain.{is_plain_value};
ghost use Rattle.pp_values.specs.Rising.{text_cmp};
ghost use Rattle.pp_values.specs.Views.{view};
ghost use Rattle.res_core.specs.PlainAttributes.{are_plain};
ghost use Rattle.agent_machine.specs.Recorded.{recorded};

use pp_values::{Memory, Text, Value, copy};
use std::alloc::Global;
use std::collections::BTreeMap;
use std::marker::Model;

/// What is recorded of a resource: its properties by name, in byte order. Values are plain, so that documents have a
/// form of them.
///
/// A contract sees each name with what its value says.
pub struct Properties {
    by_name: BTreeMap<Text, Value>,
}

// By hand, so that no crate above proves the drops of values again.
impl Drop for Properties {
    fn drop(self) {
        let Properties { by_name: _by_name } = self;
    }
}

impl Model for Properties {
    ghost use Rattle.std.specs.Prelude.{List};
    ghost use Rattle.pp_values.specs.Settings.{Setting, coded_settings};

    ghost Value = { List Setting };

    ghost coded = { coded_settings };

    ghost use Rattle.std.specs.Prelude.{IsTrue};
    ghost use Rattle.res_core.specs.PlainAttributes.{are_plain};
    ghost use Rattle.agent_machine.specs.Recorded.{recorded};

    ghost view = { λ p. recorded p.by_name.entries };

    ghost invariant = { λ p. IsTrue (are_plain (recorded p.by_name.entries)) };
}

impl Properties {
    pub fn new(alloc: Global) -> Properties
        ensures { result ≡ [] }
    {
        Properties {
            by_name: BTreeMap::new(alloc),
        }
    }

    /// Sets a property. Where there is no memory, they stay as they were.
    pub fn put(&mut self, name: Text, value: Value) -> Result<(), Memory>
        requires { IsTrue (is_plain_value (view value)) }
        ensures { self.new ≡ (if is_ok result then put text_cmp name (view value) self.old else self.old) }
    {
        drop(self.by_name.insert(name, value)?);
        Ok(())
    }

    pub fn get(&self, name: &Text) -> Option<&Value>
        ensures { option_map (λ v. view v.now) result ≡ find text_cmp name.now self.now }
    {
        self.by_name.get(name)
    }

    /// Properties that say the same.
    pub(crate) fn copy(&self, alloc: Global) -> Result<Properties, Memory>
        ensures { IfOk result (λ p. p ≡ self.now) }
    {
        let mut copied = Properties::new(alloc);
        for (name, value) in self.by_name.iter() {
            copied.put(name.copy(alloc)?, copy(alloc, value)?)?;
        }
        Ok(copied)
    }

    /// All of them, by name in byte order.
    pub fn as_map(&self) -> &BTreeMap<Text, Value>
        ensures properties { recorded result.now.entries ≡ self.now }
        ensures plain { IsTrue (are_plain self.now) }
    {
        &self.by_name
    }
}
