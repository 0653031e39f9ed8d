ghost use Rattle.std.specs.Prelude.{◌≡◌, IfOk};
ghost use Rattle.res_core.specs.Lines.{line_of};

use pp_values::{Memory, Place, Text, Value, copy};
use std::alloc::Global;

/// A line within a resource, an override, a default statement or a collector's block: a name, `=>` or `+>`, and a value.
pub struct Line {
    pub name: Text,
    /// Whether the value is added to what is set, as `+>` does.
    pub append: bool,
    pub value: Value,
    pub at: Place,
}

// By hand, so that no crate above proves the drops of values again.
impl Drop for Line {
    fn drop(self) {
        let Line {
            name: _name,
            append: _append,
            value: _value,
            at: _at,
        } = self;
    }
}

impl Line {
    /// A line that says the same.
    pub fn copy(&self, alloc: Global) -> Result<Line, Memory>
        ensures { IfOk result (λ l. line_of l ≡ line_of self.now) }
    {
        let name = self.name.copy(alloc)?;
        let at = self.at.copy(alloc)?;
        let value = copy(alloc, &self.value)?;
        Ok(Line {
            name,
            append: self.append,
            value,
            at,
        })
    }

    /// The name, the value and the place.
    pub fn into_parts(self) -> (Text, Value, Place)
        ensures name { result.0 ≡ self.name }
        ensures value { result.1 ≡ self.value }
        ensures place { result.2 ≡ self.at }
    {
        let Line {
            name,
            append: _append,
            value,
            at,
        } = self;
        (name, value, at)
    }
}
