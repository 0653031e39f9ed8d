ghost use Rattle.std.specs.Prelude.{◌≡◌, IfOk};
ghost use Rattle.res_book.specs.Rows.{reference_of};

use pp_values::{Memory, Place, Reference};
use res_core::{Attributes, Declared};
use std::alloc::Global;

/// What the body of a class or of an instance goes by.
#[derive(Drop)]
pub struct Binding {
    /// What was given for the parameters.
    pub given: Attributes,
    /// Which class or instance it is.
    pub of: Reference,
    /// Where it was declared.
    pub at: Place,
}

impl Binding {
    pub fn new(alloc: Global, given: Attributes, item: &Declared) -> Result<Binding, Memory>
        ensures { IfOk result (λ b. b
            ≡ record { given = given; of = reference_of item.now; at = item.now.at }) }
    {
        let of = Reference {
            kind: item.item.kind.copy(alloc)?,
            title: item.item.title.copy(alloc)?,
        };
        let at = item.at.copy(alloc)?;
        Ok(Binding { given, of, at })
    }
}
