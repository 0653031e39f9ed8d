ghost use Rattle.std.specs.Prelude.{◌≡◌, [], ◌∷◌, ◌++◌, ◌↔◌, length, is_ok, if◌then◌else◌, IsTrue, IfOk};
ghost use Rattle.pp_values.specs.Depth.{IsDepth, deepest_type};
ghost use Rattle.pp_values.specs.PTypes.{sort, sorts};

use crate::memory::Memory;
use crate::nesting::{MAX_NESTING, depth_around, depth_of_arguments, depth_within_types};
use crate::ptype::PType;
use std::alloc::Global;
use std::marker::Model;

/// A list of data types. A contract sees what each of them says.
#[cycle(ptype)]
#[derive(Drop)]
pub struct Types {
    items: Vec<PType>,
    /// How deep the deepest of them nests.
    depth: u32,
}

impl Model for Types {
    ghost use Rattle.std.specs.Prelude.{List};
    ghost use Rattle.pp_values.specs.Sort.{Sort, sorts_size};
    ghost use Rattle.pp_values.specs.SortCodes.{coded_sorts};

    ghost Value = { List Sort };

    ghost coded = { coded_sorts };

    ghost use Rattle.pp_values.specs.Depth.{IsDepth, deepest_type};
    ghost use Rattle.pp_values.specs.PTypes.{sorts};

    ghost view = { λ l. sorts l.items.items };

    ghost invariant = { λ l. IsDepth l.depth (deepest_type (sorts l.items.items)) };

    ghost size = { sorts_size };

    ghost use Rattle.pp_values.specs.SortFalls.{types_fall};

    ghost size_decreases = { λ l h. types_fall l.items.items };
}

impl Types {
    pub fn new(alloc: Global) -> Types
        ensures { result ≡ [] }
    {
        Types {
            items: Vec::new(alloc),
            depth: 0,
        }
    }

    /// A list of these types. Where it would nest deeper than [`MAX_NESTING`](crate::MAX_NESTING), that is want of memory.
    pub fn from_vec(items: Vec<PType>) -> Result<Types, Memory>
        ensures { IfOk result (λ l. l ≡ sorts items.items) }
    {
        let depth = depth_within_types(items.as_slice());
        if depth > MAX_NESTING {
            return Err(Memory);
        }
        Ok(Types { items, depth })
    }

    pub fn len(&self) -> usize
        ensures { result ≡ length self.now }
    {
        self.items.len()
    }

    pub fn is_empty(&self) -> bool
        ensures { IsTrue result ↔ (self.now ≡ []) }
    {
        self.items.is_empty()
    }

    pub fn as_slice(&self) -> &[PType]
        ensures { sorts result.now ≡ self.now }
    {
        self.items.as_slice()
    }

    /// Appends a type. Where there is no memory, or the list would nest deeper than
    /// [`MAX_NESTING`](crate::MAX_NESTING), it stays as it was.
    pub fn push(&mut self, item: PType) -> Result<(), Memory>
        ensures { self.new ≡ (if is_ok result then self.old ++ sort item ∷ [] else self.old) }
    {
        let depth = depth_around(depth_of_arguments(&item))?;
        self.items.push(item)?;
        self.depth = self.depth.max(depth);
        Ok(())
    }

    /// How deep the deepest of them nests.
    pub(crate) fn depth(&self) -> u32
        ensures { IsDepth result (deepest_type self.now) }
    {
        self.depth
    }
}
