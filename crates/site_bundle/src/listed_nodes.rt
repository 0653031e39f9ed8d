//! The nodes that a site lists.
ghost use Rattle.std.specs.Prelude.{◌≡◌, [], is_ok, if◌then◌else◌, IsTrue, IfSome, option_map};
ghost use Rattle.std.specs.FinMap.{find, put};
ghost use Rattle.pp_values.specs.Facts.{are_facts};
ghost use Rattle.pp_values.specs.Rising.{text_cmp};
ghost use Rattle.pp_values.specs.Views.{view};
ghost use Rattle.site_bundle.specs.Listing.{listed};
ghost use Rattle.site_bundle.specs.SiteView.{are_rising, have_facts};

use pp_values::{Memory, Text, Value};
use std::alloc::Global;
use std::collections::BTreeMap;
use std::marker::Model;

/// Nodes with their facts, by name in byte order. A contract sees the names, and what the facts say.
#[derive(Drop)]
pub struct ListedNodes {
    by_name: BTreeMap<Text, Value>,
}

impl Model for ListedNodes {
    ghost use Rattle.std.specs.Prelude.{List, IsTrue};
    ghost use Rattle.site_bundle.specs.SiteView.{Listed, coded_nodes, are_rising, have_facts};
    ghost use Rattle.site_bundle.specs.Listing.{listed};

    ghost Value = { List Listed };

    ghost coded = { coded_nodes };

    ghost view = { λ n. listed n.by_name.entries };

    ghost invariant = { λ n. IsTrue (are_rising (listed n.by_name.entries))
        × IsTrue (have_facts (listed n.by_name.entries)) };
}

impl ListedNodes {
    pub fn new(alloc: Global) -> ListedNodes
        ensures { result ≡ [] }
    {
        ListedNodes {
            by_name: BTreeMap::new(alloc),
        }
    }

    /// Lists these facts for the node, in place of those that it had. Where there is no memory, the nodes stay as they
    /// were.
    pub fn list(&mut self, name: Text, facts: Value) -> Result<(), Memory>
        requires { IsTrue (are_facts (view facts)) }
        ensures { self.new ≡ (if is_ok result then put text_cmp name (view facts) self.old else self.old) }
    {
        drop(self.by_name.insert(name, facts)?);
        Ok(())
    }

    /// The facts that are listed for the node.
    pub fn get(&self, name: &Text) -> Option<&Value>
        ensures listed { option_map (λ v. view v.now) result ≡ find text_cmp name.now self.now }
        ensures facts { IfSome result (λ v. IsTrue (are_facts (view v.now))) }
    {
        self.by_name.get(name)
    }

    /// All nodes, by name in byte order.
    pub fn as_map(&self) -> &BTreeMap<Text, Value>
        ensures nodes { listed result.now.entries ≡ self.now }
        ensures rising { IsTrue (are_rising self.now) }
        ensures facts { IsTrue (have_facts self.now) }
    {
        &self.by_name
    }
}
