ghost use Rattle.std.specs.Prelude.{◌≡◌, [], ◌∷◌, ◌++◌, ◌↔◌, length, is_ok, if◌then◌else◌, IfOk, IsTrue};
ghost use Rattle.pp_values.specs.PairLists.{fact_views};
ghost use Rattle.pp_values.specs.Views.{view};

use crate::copying::copy;
use crate::memory::Memory;
use crate::text::Text;
use crate::value::Value;
use std::alloc::Global;
use std::marker::Model;

/// A list of nodes and their facts.
#[derive(Drop)]
pub struct FactPairs {
    items: Vec<(Text, Value)>,
}

impl Model for FactPairs {
    ghost use Rattle.std.specs.Prelude.{ℕ, List};
    ghost use Rattle.std.specs.Coded.{coded×, coded_list};
    ghost use Rattle.pp_values.specs.Codes.{coded_text, coded_datum};
    ghost use Rattle.pp_values.specs.Datum.{Datum};

    ghost Value = { List (List ℕ × Datum) };

    ghost coded = { coded_list (coded× coded_text coded_datum) };

    ghost use Rattle.pp_values.specs.PairLists.{fact_views};

    ghost view = { λ l. fact_views l.items.items };
}

impl FactPairs {
    pub fn new(alloc: Global) -> FactPairs
        ensures { result ≡ [] }
    {
        FactPairs {
            items: Vec::new(alloc),
        }
    }

    pub fn from_vec(items: Vec<(Text, Value)>) -> FactPairs
        ensures { result ≡ fact_views items.items }
    {
        FactPairs { items }
    }

    pub fn into_vec(self) -> Vec<(Text, Value)>
        ensures { fact_views result.items ≡ self }
    {
        self.items
    }

    pub fn len(&self) -> usize
        ensures { result ≡ length self.now }
    {
        self.items.len()
    }

    pub fn is_empty(&self) -> bool
        ensures { IsTrue result ↔ (self.now ≡ []) }
    {
        self.items.is_empty()
    }

    pub fn as_slice(&self) -> &[(Text, Value)]
        ensures { fact_views result.now ≡ self.now }
    {
        self.items.as_slice()
    }

    /// Appends a node and its facts. Where there is no memory, the list stays as it was.
    pub fn push(&mut self, node: Text, facts: Value) -> Result<(), Memory>
        ensures { self.new ≡ (if is_ok result then self.old ++ (node, view facts) ∷ [] else self.old) }
    {
        self.items.push((node, facts))?;
        Ok(())
    }

    pub fn copy(&self, alloc: Global) -> Result<FactPairs, Memory>
        ensures { IfOk result (λ l. l ≡ self.now) }
    {
        let mut items = Vec::new(alloc);
        for (node, facts) in &self.items {
            let node = node.copy(alloc)?;
            let facts = copy(alloc, facts)?;
            items.push((node, facts))?;
        }
        Ok(FactPairs { items })
    }
}
