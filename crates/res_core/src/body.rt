ghost use Rattle.std.specs.Prelude.{◌≡◌};

use crate::lines::Lines;
use pp_values::{Place, Values};

/// One body of a resource expression: its titles, and what it sets for each of them.
pub struct Body {
    pub titles: Values,
    pub lines: Lines,
    /// The line of the title.
    pub at: Place,
}

// By hand, so that no crate above proves the drops of values again.
impl Drop for Body {
    fn drop(self) {
        let Body {
            titles: _titles,
            lines: _lines,
            at: _at,
        } = self;
    }
}

impl Body {
    /// The titles, the lines and the place.
    pub fn into_parts(self) -> (Values, Lines, Place)
        ensures titles { result.0 ≡ self.titles }
        ensures lines { result.1 ≡ self.lines }
        ensures place { result.2 ≡ self.at }
    {
        let Body { titles, lines, at } = self;
        (titles, lines, at)
    }
}
