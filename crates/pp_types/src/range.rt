//! The integers, and the counts of characters and members, that a data type takes.
ghost use Rattle.std.specs.Prelude.{◌≡◌, pos};
ghost use Rattle.pp_types.specs.Ranges.{lowest, range_from, is_in_range, is_within, same_range, bound_or};

use pp_values::{Bound, Bounds};

/// Integers from the least to the greatest; none where the least is above the greatest.
#[derive(Clone, Copy)]
pub struct Range {
    pub least: i64,
    pub greatest: i64,
}

impl Range {
    pub const INTEGERS: Range = Range {
        least: i64::MIN,
        greatest: i64::MAX,
    };

    pub const COUNTS: Range = Range {
        least: 0,
        greatest: i64::MAX,
    };

    /// The bounds of integers.
    pub fn of_integers(bounds: Bounds) -> Range
        ensures { result ≡ range_from lowest bounds }
    {
        from_bounds(i64::MIN, bounds)
    }

    /// The bounds of a length or a count.
    pub fn of_counts(bounds: Bounds) -> Range
        ensures { result ≡ range_from (pos 0) bounds }
    {
        from_bounds(0, bounds)
    }

    pub fn has(self, number: i64) -> bool
        ensures { result ≡ is_in_range self number }
    {
        self.least <= number && number <= self.greatest
    }

    /// Whether a length or a count is in range.
    pub fn has_count(self, count: usize) -> bool
        ensures { result ≡ is_in_range self (pos count) }
    {
        match i64::try_from(count) {
            Ok(number) => self.has(number),
            Err(_) => false,
        }
    }

    /// Whether the other's bounds are within these.
    pub fn covers(self, other: Range) -> bool
        ensures { result ≡ is_within self other }
    {
        self.least <= other.least && other.greatest <= self.greatest
    }

    pub fn is(self, other: Range) -> bool
        ensures { result ≡ same_range self other }
    {
        self.least == other.least && self.greatest == other.greatest
    }
}

/// The bounds with what was left out filled in: the lowest, and the greatest integer of 64 bits.
pub fn from_bounds(lowest: i64, bounds: Bounds) -> Range
    ensures { result ≡ range_from lowest bounds }
{
    match bounds {
        Bounds::Omitted => Range {
            least: lowest,
            greatest: i64::MAX,
        },
        Bounds::Least(least) => Range {
            least: or_else(lowest, least),
            greatest: i64::MAX,
        },
        Bounds::Both(least, greatest) => Range {
            least: or_else(lowest, least),
            greatest: or_else(i64::MAX, greatest),
        },
    }
}

fn or_else(number: i64, bound: Bound) -> i64
    ensures { result ≡ bound_or number bound }
{
    match bound {
        Bound::Default => number,
        Bound::Number(given) => given,
    }
}
