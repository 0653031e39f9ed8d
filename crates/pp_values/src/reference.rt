ghost use Rattle.std.specs.Prelude.{◌≡◌, IfOk};

use crate::kind::Kind;
use crate::memory::Memory;
use crate::text::Text;
use std::alloc::Global;

/// The name of a resource: its kind, such as `web::vhost`, and its title.
#[derive(Debug)]
pub struct Reference {
    pub kind: Kind,
    pub title: Text,
}

// By hand, so that a value is dropped by one call where it is a reference.
impl Drop for Reference {
    fn drop(self) {
        let Reference {
            kind: _kind,
            title: _title,
        } = self;
    }
}

impl Reference {
    pub fn copy(&self, alloc: Global) -> Result<Reference, Memory>
        ensures { IfOk result (λ r. r ≡ self.now) }
    {
        let kind = self.kind.copy(alloc)?;
        let title = self.title.copy(alloc)?;
        Ok(Reference { kind, title })
    }
}

impl PartialEq for Reference {
    ghost use Rattle.std.specs.Cmp.{partial_equiv_from_equiv};
    ghost use Rattle.pp_values.specs.References.{same_reference, same_reference_equiv};

    ghost eq = { same_reference };

    ghost laws = { partial_equiv_from_equiv same_reference_equiv };

    fn eq(&self, other: &Reference) -> bool {
        self.kind == other.kind && self.title == other.title
    }
}

impl Eq for Reference {
    ghost use Rattle.pp_values.specs.References.{same_reference_equiv};

    ghost laws = { same_reference_equiv };
}
