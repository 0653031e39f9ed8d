ghost use Rattle.std.specs.Prelude.{◌≡◌, ◌+◌, [], ◌∷◌, ◌++◌, ◌↔◌, length, is_ok, if◌then◌else◌, IsTrue, IfOk, option_map, slice_get};
ghost use Rattle.pp_values.specs.Depth.{IsDepth, deepest};
ghost use Rattle.pp_values.specs.Views.{view, views};

use crate::memory::Memory;
use crate::nesting::{depth_around, depth_of, depth_within};
use crate::value::Value;
use std::alloc::Global;
use std::marker::Model;

/// A list of values. A contract sees what each of them says.
#[cycle(value)]
pub struct Values {
    items: Vec<Value>,
    /// How deep the list nests, itself included.
    depth: u32,
}

impl Drop for Values {
    #[cycle(dropping)]
    fn drop(self) {
        let Values {
            items: _items,
            depth: _depth,
        } = self;
    }
}

impl Model for Values {
    ghost use Rattle.std.specs.Prelude.{List};
    ghost use Rattle.pp_values.specs.Datum.{Datum};
    ghost use Rattle.pp_values.specs.Codes.{coded_data};
    ghost use Rattle.pp_values.specs.Sizes.{data_size};

    ghost Value = { List Datum };

    ghost coded = { coded_data };

    ghost use Rattle.std.specs.Prelude.{◌+◌};
    ghost use Rattle.pp_values.specs.Depth.{IsDepth, deepest};
    ghost use Rattle.pp_values.specs.Views.{views};

    ghost view = { λ l. views l.items.items };

    ghost invariant = { λ l. IsDepth l.depth (deepest (views l.items.items) + 1) };

    ghost size = { data_size };

    ghost use Rattle.pp_values.specs.Falls.{values_fall};

    ghost size_decreases = { λ l h. values_fall l.items.items };
}

impl Values {
    pub fn new(alloc: Global) -> Values
        ensures { result ≡ [] }
    {
        Values {
            items: Vec::new(alloc),
            depth: 1,
        }
    }

    /// A list of these values. Where it would nest deeper than [`MAX_NESTING`](crate::MAX_NESTING), that is want of memory.
    pub fn from_vec(items: Vec<Value>) -> Result<Values, Memory>
        ensures { IfOk result (λ l. l ≡ views items.items) }
    {
        let depth = depth_around(depth_within(items.as_slice()))?;
        Ok(Values { items, depth })
    }

    pub fn into_vec(self) -> Vec<Value>
        ensures { views result.items ≡ self }
    {
        let Values {
            items,
            depth: _depth,
        } = self;
        items
    }

    pub fn len(&self) -> usize
        ensures { result ≡ length self.now }
    {
        self.items.len()
    }

    pub fn is_empty(&self) -> bool
        ensures { IsTrue result ↔ (self.now ≡ []) }
    {
        self.items.is_empty()
    }

    pub fn as_slice(&self) -> &[Value]
        ensures { views result.now ≡ self.now }
    {
        self.items.as_slice()
    }

    pub fn get(&self, index: usize) -> Option<&Value>
        ensures { option_map (λ v. view v.now) result ≡ slice_get self.now index }
    {
        self.items.get(index)
    }

    /// Appends a value. Where there is no memory, or the list would nest deeper than
    /// [`MAX_NESTING`](crate::MAX_NESTING), it stays as it was.
    pub fn push(&mut self, item: Value) -> Result<(), Memory>
        ensures { self.new ≡ (if is_ok result then self.old ++ view item ∷ [] else self.old) }
    {
        let depth = depth_around(depth_of(&item))?;
        self.items.push(item)?;
        self.depth = self.depth.max(depth);
        Ok(())
    }

    /// How deep the list nests, itself included.
    pub(crate) fn depth(&self) -> u32
        ensures { IsDepth result (deepest self.now + 1) }
    {
        self.depth
    }
}
