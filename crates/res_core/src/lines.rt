ghost use Rattle.std.specs.Prelude.{◌≡◌, [], ◌∷◌, ◌++◌, ◌↔◌, length, is_ok, if◌then◌else◌, IsTrue};
ghost use Rattle.res_core.specs.Lines.{line_of, lines_of};

use crate::line::Line;
use pp_values::Memory;
use std::alloc::Global;
use std::marker::Model;

/// Lines, in the order in which they are written. A contract sees each with what its value says.
pub struct Lines {
    items: Vec<Line>,
}

// By hand, so that no crate above proves the drops of values again.
impl Drop for Lines {
    fn drop(self) {
        let Lines { items: _items } = self;
    }
}

impl Model for Lines {
    ghost use Rattle.std.specs.Prelude.{List};
    ghost use Rattle.res_core.specs.Lines.{Line, coded_lines};

    ghost Value = { List Line };

    ghost coded = { coded_lines };

    ghost use Rattle.res_core.specs.Lines.{lines_of};

    ghost view = { λ l. lines_of l.items.items };
}

impl Lines {
    pub fn new(alloc: Global) -> Lines
        ensures { result ≡ [] }
    {
        Lines {
            items: Vec::new(alloc),
        }
    }

    pub fn len(&self) -> usize
        ensures { result ≡ length self.now }
    {
        self.items.len()
    }

    pub fn is_empty(&self) -> bool
        ensures { IsTrue result ↔ (self.now ≡ []) }
    {
        self.items.is_empty()
    }

    pub fn as_slice(&self) -> &[Line]
        ensures { lines_of result.now ≡ self.now }
    {
        self.items.as_slice()
    }

    /// Appends a line. Where there is no memory, the lines stay as they were.
    pub fn push(&mut self, item: Line) -> Result<(), Memory>
        ensures { self.new ≡ (if is_ok result then self.old ++ line_of item ∷ [] else self.old) }
    {
        self.items.push(item)?;
        Ok(())
    }

    /// Puts other lines behind these. Where there is no memory, these stay as they were.
    pub fn append(&mut self, more: Lines) -> Result<(), Memory>
        ensures { self.new ≡ (if is_ok result then self.old ++ more else self.old) }
    {
        let Lines { mut items } = more;
        self.items.append(&mut items)?;
        Ok(())
    }
}
