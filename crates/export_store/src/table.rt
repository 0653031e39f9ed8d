ghost use Rattle.std.specs.Prelude.{◌≡◌, ◌↔◌, IfOk, IsTrue, option_copied};
ghost use Rattle.std.specs.Arc.{arc_value};
ghost use Rattle.std.specs.FinMap as map;
ghost use Rattle.export_store.specs.Levels.{root_runs, runs_entries};

use crate::root::Root;
use crate::row::Row;
use crate::run::Run;
use crate::runs::{value_in_runs, with_runs, without_runs};
use pp_values::{Memory, Text};
use std::alloc::Global;
use std::marker::Model;
use std::sync::Arc;

/// A map from texts to values. A table never changes, and shares its parts with those that are made from it: a change
/// copies the list of runs, one run's list of leaves and one leaf's list of rows, and nothing that they point to.
#[derive(Drop)]
pub struct Table<V: Drop> {
    // An empty table needs none, and so takes no memory.
    root: Option<Arc<Root<V>>>,
}

impl<V: Drop> Model for Table<V> {
    ghost use Rattle.std.specs.FinMap.{code};
    ghost use Rattle.pp_values.specs.Codes.{coded_text};
    ghost use Rattle.export_store.specs.Levels.{MapOf};

    ghost Value = { MapOf V };

    ghost coded = { code coded_text V.code };

    ghost use Rattle.std.specs.FinMap.{from_sorted};
    ghost use Rattle.export_store.specs.Levels.{root_entries, IsTable};

    ghost view = { λ t. from_sorted (root_entries t.root) };

    ghost invariant = { λ t. IsTable t.root };
}

impl<V: Drop> Table<V> {
    pub fn empty() -> Table<V>
        ensures { result ≡ map.empty }
    {
        Table { root: None }
    }

    /// The same table, by one further owner.
    pub fn copy(&self) -> Result<Table<V>, Memory>
        ensures { IfOk result (λ t. t ≡ self.now) }
    {
        match &self.root {
            Some(root) => {
                let root = root.clone()?;
                Ok(Table { root: Some(root) })
            }
            None => Ok(Table { root: None }),
        }
    }

    /// The table in which the key has this value, in place of what it had.
    pub fn with(&self, alloc: Global, key: &Text, value: Arc<V>) -> Result<Table<V>, Memory>
        ensures { IfOk result (λ t. t ≡ map.insert self.now key.now (arc_value value)) }
    {
        let key = key.copy(alloc)?;
        let runs = with_runs(alloc, runs_of(&self.root), Row { key, value })?;
        let root = Arc::new(alloc, Root { runs })?;
        Ok(Table { root: Some(root) })
    }

    /// The table in which the key has no value.
    pub fn without(&self, alloc: Global, key: &Text) -> Result<Table<V>, Memory>
        ensures { IfOk result (λ t. t ≡ map.remove self.now key.now) }
    {
        let runs = without_runs(alloc, runs_of(&self.root), key)?;
        let root = Arc::new(alloc, Root { runs })?;
        Ok(Table { root: Some(root) })
    }

    /// The key's value, if it has one. The time is logarithmic in the number of keys.
    pub fn get(&self, key: &Text) -> Option<&V>
        ensures { option_copied result ≡ map.get self.now key.now }
    {
        value_in_runs(runs_of(&self.root), key)
    }

    /// Whether there is no run at all: then no key has a value.
    pub fn is_empty(&self) -> bool
        ensures { IsTrue result → (self.now ≡ map.empty) }
    {
        runs_of(&self.root).len() == 0
    }

    /// All rows, in runs of leaves.
    pub fn runs(&self) -> &[Arc<Run<V>>]
        ensures { runs_entries result.now ≡ map.entries self.now }
    {
        runs_of(&self.root)
    }
}

/// The runs of a root, if there is one.
fn runs_of<V: Drop>(root: &Option<Arc<Root<V>>>) -> &[Arc<Run<V>>]
    ensures { result.now ≡ root_runs root.now }
{
    match root {
        Some(root) => &root.runs,
        None => &[],
    }
}
