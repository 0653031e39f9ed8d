ghost use Rattle.std.specs.Prelude.{◌≡◌};
ghost use Rattle.res_core.specs.Catalogs.{IsCatalog};

use crate::edges::EdgeList;
use crate::held_list::HeldList;
use crate::log_lines::LogLines;
use pp_values::Text;
use std::marker::Model;

/// What a node is to be: its resources and their order, and the lines that its compile wrote.
///
/// No two resources have the same kind and title, and each index in the catalog is that of one of them. What contains a
/// resource rises, and the edges rise by `from`, then `to`, so that no pair stands twice. No value has a data type or
/// `default` within.
pub struct Catalog {
    node: Text,
    resources: HeldList,
    edges: EdgeList,
    log: LogLines,
}

// By hand, so that no crate above proves the drops of its parts again.
impl Drop for Catalog {
    fn drop(self) {
        let Catalog {
            node: _node,
            resources: _resources,
            edges: _edges,
            log: _log,
        } = self;
    }
}

impl Model for Catalog {
    ghost use Rattle.res_core.specs.Catalogs.{Catalog as Seen};
    ghost use Rattle.res_core.specs.CatalogCodes.{coded_catalog};

    ghost Value = { Seen };

    ghost coded = { coded_catalog };

    ghost use Rattle.res_core.specs.Catalogs.{IsCatalog};

    ghost view = { λ c. record { node = c.node; resources = c.resources; edges = c.edges; log = c.log } };

    ghost invariant = { λ c. IsCatalog c.resources c.edges };
}

impl Catalog {
    pub fn new(node: Text, resources: HeldList, edges: EdgeList, log: LogLines) -> Catalog
        requires { IsCatalog resources edges }
        ensures { result ≡ record { node = node; resources = resources; edges = edges; log = log } }
    {
        Catalog {
            node,
            resources,
            edges,
            log,
        }
    }

    pub fn node(&self) -> &Text
        ensures { result.now ≡ self.now.node }
    {
        &self.node
    }

    /// The resources. A resource's place in this list is its index.
    pub fn resources(&self) -> &HeldList
        ensures resources { result.now ≡ self.now.resources }
        ensures kept { IsCatalog self.now.resources self.now.edges }
    {
        &self.resources
    }

    /// Which resources come before which.
    pub fn edges(&self) -> &EdgeList
        ensures edges { result.now ≡ self.now.edges }
        ensures kept { IsCatalog self.now.resources self.now.edges }
    {
        &self.edges
    }

    /// The lines that the compile wrote.
    pub fn log(&self) -> &LogLines
        ensures { result.now ≡ self.now.log }
    {
        &self.log
    }

    /// The same catalog with these lines.
    pub fn with_log(self, log: LogLines) -> Catalog
        ensures { result ≡ record self { log = log } }
    {
        let Catalog {
            node,
            resources,
            edges,
            log: _none,
        } = self;
        Catalog {
            node,
            resources,
            edges,
            log,
        }
    }
}
