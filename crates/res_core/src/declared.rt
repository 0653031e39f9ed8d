ghost use Rattle.std.specs.Prelude.{◌≡◌, IfOk};

use crate::known_names::KnownNames;
use crate::resource::Resource;
use pp_values::{Memory, Place, Reference, Text};
use std::alloc::Global;

/// A resource as a manifest declares it, before any override and any default statement.
pub struct Declared {
    pub item: Resource,
    /// The body that declares it: the line of its title.
    pub at: Place,
    /// The number of the scope that declares it; for a lambda's scope, of the one that it is within.
    pub scope: u32,
    /// The number of the declaration that contains it. A class has none.
    pub container: Option<u32>,
    /// Its source: `class C`, `define D` or `node`, for the class, define or node definition in whose body it stands.
    pub class: Text,
    /// The attributes that its kind takes besides the metaparameters.
    pub known: KnownNames,
}

impl Declared {
    /// What it is called by: its kind and its title.
    pub fn reference(&self, alloc: Global) -> Result<Reference, Memory>
        ensures { IfOk result (λ r. r ≡ record { kind = self.now.item.kind; title = self.now.item.title }) }
    {
        let kind = self.item.kind.copy(alloc)?;
        let title = self.item.title.copy(alloc)?;
        Ok(Reference { kind, title })
    }
}

// By hand, so that letting one go is one step for whoever holds it.
impl Drop for Declared {
    fn drop(self) {
        let Declared {
            item: _item,
            at: _at,
            scope: _scope,
            container: _container,
            class: _class,
            known: _known,
        } = self;
    }
}
