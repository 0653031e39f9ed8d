ghost use Rattle.std.specs.Prelude.{◌≡◌, [], true, false, if◌then◌else◌, is_ok, is_some, IsTrue, IfOk, option_copied};
ghost use Rattle.std.specs.FinMap.{find, put};
ghost use Rattle.pp_values.specs.Plain.{is_plain_value};
ghost use Rattle.pp_values.specs.Rising.{text_cmp};
ghost use Rattle.pp_values.specs.Views.{view};
ghost use Rattle.pp_values.specs.Words.{reference_text};
ghost use Rattle.agent_machine.specs.CallTexts.{pieces_text};
ghost use Rattle.agent_machine.specs.Parts.{copied};
ghost use Rattle.agent_machine.specs.States.{record_of, with_property, without};

use crate::call_text::CallText;
use crate::properties::Properties;
use pp_values::{Memory, Reference, Text, Value, write_reference};
use std::alloc::Global;
use std::collections::BTreeMap;
use std::marker::Model;

/// What is recorded of resources, by the texts of their references in byte order.
///
/// A contract sees each text with the properties.
#[derive(Drop)]
pub struct States {
    by_text: BTreeMap<Text, Properties>,
}

impl Model for States {
    ghost use Rattle.std.specs.Prelude.{ℕ, List};
    ghost use Rattle.pp_values.specs.Settings.{Setting};
    ghost use Rattle.agent_machine.specs.StateCodes.{coded_state};

    ghost Value = { List (List ℕ × List Setting) };

    ghost coded = { coded_state };

    ghost view = { λ s. s.by_text.entries };
}

impl States {
    pub fn new(alloc: Global) -> States
        ensures { result ≡ [] }
    {
        States {
            by_text: BTreeMap::new(alloc),
        }
    }

    /// Puts a record in, in the place of what had this text. Where there is no memory, all stays as it was.
    pub fn put(&mut self, text: Text, properties: Properties) -> Result<(), Memory>
        ensures { self.new ≡ (if is_ok result then put text_cmp text properties self.old else self.old) }
    {
        drop(self.by_text.insert(text, properties)?);
        Ok(())
    }

    /// All records, by text in byte order.
    pub fn as_map(&self) -> &BTreeMap<Text, Properties>
        ensures { result.now.entries ≡ self.now }
    {
        &self.by_text
    }

    /// The record of a resource.
    pub fn get(&self, what: &Reference) -> Option<&Properties>
        ensures { option_copied result ≡ record_of what.now self.now }
    {
        self.by_text.get(key(what))
    }

    /// Puts a copy of the record of a resource into other states, or takes theirs away where it has none. Where there is
    /// no memory, they stay as they were.
    pub(crate) fn copy_into(
        &self,
        alloc: Global,
        what: &Reference,
        other: &mut States,
    ) -> Result<(), Memory>
        ensures { other.new ≡ (if is_ok result then copied what.now self.now other.old else other.old) }
    {
        match self.get(what) {
            Some(properties) => {
                let properties = properties.copy(alloc)?;
                let text = reference_text(alloc, what)?;
                other.put(text, properties)
            }
            None => {
                other.remove(what);
                Ok(())
            }
        }
    }

    /// Sets a property of a resource. Where there is no memory, all stays as it was.
    pub(crate) fn set(
        &mut self,
        alloc: Global,
        what: &Reference,
        name: &Text,
        value: Value,
    ) -> Result<(), Memory>
        requires { IsTrue (is_plain_value (view value)) }
        ensures { self.new ≡ (if is_ok result then with_property what.now name.now (view value) self.old else self.old) }
    {
        let name = name.copy(alloc)?;
        if self.by_text.contains_key(key(what)) {
            self.change(what, name, value)
        } else {
            self.create(alloc, what, name, value)
        }
    }

    /// Sets a property of a resource that has a record.
    fn change(&mut self, what: &Reference, name: Text, value: Value) -> Result<(), Memory>
        requires plain { IsTrue (is_plain_value (view value)) }
        requires there { is_some (record_of what.now self.old) ≡ true }
        ensures { self.new ≡ (if is_ok result then with_property what.now name (view value) self.old else self.old) }
    {
        match self.by_text.get_mut(key(what)) {
            Some(properties) => properties.put(name, value),
            None => unreachable!(),
        }
    }

    /// Gives a resource a record with this property.
    fn create(
        &mut self,
        alloc: Global,
        what: &Reference,
        name: Text,
        value: Value,
    ) -> Result<(), Memory>
        requires plain { IsTrue (is_plain_value (view value)) }
        requires none { is_some (record_of what.now self.old) ≡ false }
        ensures { self.new ≡ (if is_ok result then with_property what.now name (view value) self.old else self.old) }
    {
        let mut properties = Properties::new(alloc);
        properties.put(name, value)?;
        let text = reference_text(alloc, what)?;
        self.put(text, properties)
    }

    /// Removes the record of a resource.
    pub(crate) fn remove(&mut self, what: &Reference)
        ensures { self.new ≡ without (reference_text what.now) self.old }
    {
        drop(self.by_text.remove(key(what)));
    }
}

/// How the record of a resource is found.
fn key(what: &Reference) -> CallText<'_>
    ensures { pieces_text result ≡ reference_text what.now }
{
    CallText {
        before: "",
        what,
        gap: "",
        name: "",
    }
}

fn reference_text(alloc: Global, what: &Reference) -> Result<Text, Memory>
    ensures { IfOk result (λ t. t ≡ reference_text what.now) }
{
    let mut out = String::new(alloc);
    write_reference(&mut out, what)?;
    Ok(Text::new(out))
}
