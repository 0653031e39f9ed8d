// The rule of the table behind the claims, and the steps that their methods make.
use crate::view::View;
use atomic_table::{Join, Play, Split, TableRule};

// The key is the count of numbers.
pub struct ClaimRule;

impl TableRule<(), View, u32> for ClaimRule {
    ghost use Rattle.work_pool.specs.Claimed.{Claimed};
    ghost use Rattle.work_pool.specs.Views.{first_view};

    ghost holds = { Claimed };

    ghost first = { first_view };
}

// Looks how many numbers were drawn.
pub struct Look;

impl Play<(), View> for Look {
    ghost use Rattle.work_pool.specs.Steps.{Looked};

    ghost then = { Looked };
}

// Draws a number.
pub struct Draw;

impl Play<(), View> for Draw {
    ghost use Rattle.work_pool.specs.Steps.{Drew};

    ghost then = { Drew };
}

// Looks that no number stands twice in a seat.
pub struct Settle;

impl Play<(), View> for Settle {
    ghost use Rattle.work_pool.specs.Steps.{Settled};

    ghost then = { Settled };
}

// Makes a seat.
pub struct Divide;

impl Split<View> for Divide {
    ghost use Rattle.work_pool.specs.Views.{dividing, divided};

    ghost left = { dividing };

    ghost right = { divided };
}

// Takes another seat in.
pub struct Merge;

impl Join<View> for Merge {
    ghost use Rattle.work_pool.specs.Views.{joined, spent};

    ghost both = { joined };

    ghost spent = { spent };
}
