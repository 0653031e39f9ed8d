ghost use Rattle.std.specs.Prelude.{◌≡◌, ◌≤◌, ◌<◌, ◌^◌, ◌==◌, [], None, length, if◌then◌else◌, is_ok, option_map, OnOk};
ghost use Rattle.std.specs.Prelude.{IfOk};
ghost use Rattle.pp_values.specs.Rising.{with_texts};
ghost use Rattle.pp_values.specs.Views.{view};
ghost use Rattle.override_rules.specs.Defaults.{default_in, default_key, with_default, defaults_for};
ghost use Rattle.override_rules.specs.Names.{names_in};

use crate::counts::Counts;
use crate::default_key::{DefaultKey, WantedDefault};
use pp_values::{Kept, Kind, Memory, Text, Value};
use std::alloc::Global;
use std::collections::{BTreeMap, BTreeSet};
use std::marker::Model;

/// The lines of default statements. No scope has two for the same kind and name.
#[derive(Drop)]
pub struct Defaults {
    values: BTreeMap<DefaultKey, Value>,
    // How many of them are for a kind.
    counts: Counts,
}

impl Model for Defaults {
    ghost use Rattle.std.specs.Prelude.{List};
    ghost use Rattle.override_rules.specs.Codes.{coded_defaults};
    ghost use Rattle.override_rules.specs.Defaults.{Default};

    ghost Value = { List Default };

    ghost coded = { coded_defaults };

    ghost use Rattle.override_rules.specs.Counts.{CountsKinds};
    ghost use Rattle.override_rules.specs.Inside.{defaults_of};

    ghost view = { λ d. defaults_of d.values.entries };

    ghost invariant = { λ d. CountsKinds d.counts.by_kind (defaults_of d.values.entries) };
}

impl Defaults {
    pub fn new(alloc: Global) -> Defaults
        ensures { result ≡ [] }
    {
        Defaults {
            values: BTreeMap::new(alloc),
            counts: Counts::new(alloc),
        }
    }

    pub fn len(&self) -> usize
        ensures { result ≡ length self.now }
    {
        self.values.len()
    }

    /// How many are for a kind, whatever scope has them.
    pub fn count(&self, kind: &Kind) -> usize
        ensures count { result ≡ length (defaults_for kind.now self.now) }
        ensures fits { result ≤ length self.now }
    {
        self.counts.at(kind.as_text())
    }

    /// Whether no scope has one for a kind.
    pub fn has_none(&self, kind: &Kind) -> bool
        ensures { result ≡ (length (defaults_for kind.now self.now) == 0) }
    {
        self.count(kind) == 0
    }

    /// What the scope itself has.
    pub fn get(&self, kind: &Kind, scope: u32, name: &Text) -> Option<&Value>
        ensures { option_map (λ v. view v.now) result ≡ default_in self.now kind.now scope name.now }
    {
        let scope = u64::from(scope);
        self.values.get(WantedDefault { kind, scope, name })
    }

    /// Adds a default that the scope does not have. Where there is no memory, all stays as it was.
    pub fn add(
        &mut self,
        alloc: Global,
        kind: &Kind,
        scope: u32,
        name: &Text,
        value: Value,
    ) -> Result<(), Memory>
        requires new { default_in self.old kind.now scope name.now ≡ None }
        requires room { length self.old < 2 ^ 32 }
        ensures { self.new
            ≡ (if is_ok result
            then with_default self.old (default_key kind.now scope name.now) (view value)
            else self.old) }
    {
        let value = Kept::new(value);
        self.counts.open(alloc, kind.as_text())?;
        let key = DefaultKey {
            kind: kind.copy(alloc)?,
            scope: u64::from(scope),
            name: name.copy(alloc)?,
        };
        self.values.insert(key, value.into_inner())?;
        self.counts.raise(kind.as_text());
        Ok(())
    }

    /// Puts the names that the scope itself has for a kind into the set.
    pub fn put_names(
        &self,
        alloc: Global,
        kind: &Kind,
        scope: u32,
        names: &mut BTreeSet<Text>,
    ) -> Result<(), Memory>
        ensures { OnOk result (names.new.keys ≡ with_texts names.old.keys (names_in self.now kind.now scope)) }
    {
        let number = u64::from(scope);
        let first = first_key(alloc, kind, number)?;
        let end = first_key(alloc, kind, number + 1)?;
        for (key, _value) in self.values.range(first..end) {
            names.insert(key.name.copy(alloc)?)?;
        }
        Ok(())
    }
}

/// The key that comes before all others of the kind and scope.
fn first_key(alloc: Global, kind: &Kind, scope: u64) -> Result<DefaultKey, Memory>
    ensures { IfOk result (λ k. k ≡ default_key kind.now scope []) }
{
    let kind = kind.copy(alloc)?;
    let name = Text::from_str(alloc, "")?;
    Ok(DefaultKey { kind, scope, name })
}
