ghost use Rattle.std.specs.Prelude.{◌≡◌, ◌≤◌, [], ◌∷◌, ◌++◌, length, if◌then◌else◌, is_ok, option_map, slice_get};
ghost use Rattle.override_rules.specs.Lines.{line_of, lines_of, lines_on};
ghost use Rattle.override_rules.specs.Numbers.{lines_at};

use crate::numbers::Numbers;
use crate::override_line::OverrideLine;
use crate::target::{Target, Wanted};
use pp_values::{Kind, Memory, Text};
use std::alloc::Global;
use std::marker::Model;

/// Override lines, in the order in which they came. Those on one resource are found without going over the others.
#[derive(Drop)]
pub struct Lines {
    items: Vec<OverrideLine>,
    // Where in `items` the lines on a resource stand.
    numbers: Numbers,
}

impl Model for Lines {
    ghost use Rattle.std.specs.Prelude.{List};
    ghost use Rattle.std.specs.Coded.{coded_list};
    ghost use Rattle.override_rules.specs.Codes.{coded_line};
    ghost use Rattle.override_rules.specs.Lines.{Line};

    ghost Value = { List Line };

    ghost coded = { coded_list coded_line };

    ghost use Rattle.override_rules.specs.Lines.{lines_of};
    ghost use Rattle.override_rules.specs.Numbers.{Finds};

    ghost view = { λ l. lines_of l.items.items };

    ghost invariant = { λ l. Finds l.numbers.by_target (lines_of l.items.items) };
}

impl Lines {
    pub fn new(alloc: Global) -> Lines
        ensures { result ≡ [] }
    {
        Lines {
            items: Vec::new(alloc),
            numbers: Numbers::new(alloc),
        }
    }

    pub fn len(&self) -> usize
        ensures { result ≡ length self.now }
    {
        self.items.len()
    }

    pub fn as_slice(&self) -> &[OverrideLine]
        ensures { lines_of result.now ≡ self.now }
    {
        self.items.as_slice()
    }

    pub fn get(&self, number: usize) -> Option<&OverrideLine>
        ensures { option_map (λ l. line_of l.now) result ≡ slice_get self.now number }
    {
        self.items.get(number)
    }

    /// Where the lines on a resource stand, in their order.
    pub fn on(&self, kind: &Kind, title: &Text) -> &[usize]
        ensures lines { lines_at self.now result.now
            ≡ lines_on (record { kind = kind.now; title = title.now }) self.now }
        ensures count { length result.now
            ≡ length (lines_on (record { kind = kind.now; title = title.now }) self.now) }
        ensures fits { length result.now ≤ length self.now }
    {
        self.numbers.at(Wanted { kind, title })
    }

    /// Adds a line behind the others. Where there is no memory, all stays as it was.
    pub fn push(&mut self, alloc: Global, line: OverrideLine) -> Result<(), Memory>
        ensures { self.new ≡ (if is_ok result then self.old ++ line_of line ∷ [] else self.old) }
    {
        let reference = line.target.copy(alloc)?;
        self.items.reserve(1)?;
        self.numbers
            .add(alloc, Target { reference }, self.items.len())?;
        self.items.push(line)?;
        Ok(())
    }
}
