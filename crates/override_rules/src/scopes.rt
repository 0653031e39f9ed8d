ghost use Rattle.std.specs.Prelude.{◌≡◌, [], length, if◌then◌else◌, is_ok};
ghost use Rattle.override_rules.specs.Defaults.{parent_of, with_scope};

use pp_values::Memory;
use std::alloc::Global;
use std::collections::BTreeMap;
use std::marker::Model;

/// The scopes that were opened, each with its dynamic parent.
#[derive(Drop)]
pub struct Scopes {
    parents: BTreeMap<u32, Option<u32>>,
}

impl Model for Scopes {
    ghost use Rattle.std.specs.Prelude.{List};
    ghost use Rattle.override_rules.specs.Codes.{coded_scopes};
    ghost use Rattle.override_rules.specs.Defaults.{Scope};

    ghost Value = { List Scope };

    ghost coded = { coded_scopes };

    ghost view = { λ s. s.parents.entries };
}

impl Scopes {
    pub fn new(alloc: Global) -> Scopes
        ensures { result ≡ [] }
    {
        Scopes {
            parents: BTreeMap::new(alloc),
        }
    }

    pub fn len(&self) -> usize
        ensures { result ≡ length self.now }
    {
        self.parents.len()
    }

    /// A scope's dynamic parent. With `None` the scope was not opened.
    pub fn parent(&self, scope: u32) -> Option<Option<u32>>
        ensures { result ≡ parent_of self.now scope }
    {
        self.parents.get(&scope).copied()
    }

    /// Opens a scope, which keeps its parent where it was opened before. Where there is no memory, all stays as it was.
    pub fn open(&mut self, scope: u32, parent: Option<u32>) -> Result<(), Memory>
        ensures { self.new ≡ (if is_ok result then with_scope self.old scope parent else self.old) }
    {
        match self.parent(scope) {
            Some(_parent) => Ok(()),
            None => {
                self.parents.insert(scope, parent)?;
                Ok(())
            }
        }
    }
}
