ghost use Rattle.std.specs.Prelude.{◌≡◌, [], OnOk, OnErr};
ghost use Rattle.pp_values.specs.declared.reference.Reference.{Reference};
ghost use Rattle.override_rules.specs.Numbers.{numbers_at, Adds, Keeps};

use crate::target::{Target, Wanted};
use pp_values::Memory;
use std::alloc::Global;
use std::collections::BTreeMap;

/// The numbers of lines, by the resource that they are on.
///
/// References are what manifests and other nodes choose, so they are looked up by their order and not by a hash.
#[derive(Drop)]
pub struct Numbers {
    by_target: BTreeMap<Target, Vec<usize>>,
}

impl Numbers {
    pub fn new(alloc: Global) -> Numbers
        ensures { (r : Reference) → numbers_at result.by_target r ≡ [] }
    {
        Numbers {
            by_target: BTreeMap::new(alloc),
        }
    }

    pub fn at(&self, wanted: Wanted<'_>) -> &[usize]
        ensures { result.now
            ≡ numbers_at self.now.by_target (record { kind = wanted.entry.kind.now; title = wanted.entry.title.now }) }
    {
        match self.by_target.get(wanted) {
            Some(numbers) => numbers.as_slice(),
            None => &[],
        }
    }

    /// Adds a number for a target, behind those that it has.
    pub fn add(&mut self, alloc: Global, target: Target, number: usize) -> Result<(), Memory>
        ensures adds { OnOk result (Adds target.reference number self.old.by_target self.new.by_target) }
        ensures keeps { OnErr result (Keeps self.old.by_target self.new.by_target) }
    {
        if let Some(numbers) = self.by_target.get_mut(&target) {
            numbers.push(number)?;
            return Ok(());
        }
        self.add_first(alloc, target, number)
    }

    fn add_first(&mut self, alloc: Global, target: Target, number: usize) -> Result<(), Memory>
        requires { numbers_at self.old.by_target target.reference ≡ [] }
        ensures adds { OnOk result (Adds target.reference number self.old.by_target self.new.by_target) }
        ensures keeps { OnErr result (Keeps self.old.by_target self.new.by_target) }
    {
        let mut numbers = Vec::new(alloc);
        numbers.push(number)?;
        self.by_target.insert(target, numbers)?;
        Ok(())
    }
}
