ghost use Rattle.std.specs.Prelude.{◌≡◌, ◌<◌, IsOk, IfOk};
ghost use Rattle.list_sums.specs.Counts.{Once};
ghost use Rattle.work_pool.specs.Seats.{first_seat, Draws, splitting, split_off, joining};

use crate::rule::{ClaimRule, Divide, Draw, Look, Merge, Settle};
use crate::view::View;
use atomic_table::{Seat, Table};
use std::alloc::{AllocError, Global};
use std::marker::Model;

/// Numbers that threads share out: each one goes to one seat. Contracts see which claims they are, and how
/// many numbers there are.
#[derive(Drop)]
pub struct Claims {
    table: Table<(), View, u32, ClaimRule, Global>,
    count: u32,
}

impl Model for Claims {
    ghost use Rattle.std.specs.Prelude.{◌≡◌};
    ghost use Rattle.work_pool.specs.Seats.{ClaimsId};

    ghost Value = { ClaimsId };

    ghost view = { λ c. record { table = c.table.shared.table_id; count = c.count } };

    ghost invariant = { λ c. (c.table.shared.table_id.words ≡ 1) × (c.table.shared.key ≡ c.count) };
}

/// The right to draw numbers, and those that were drawn with it. Contracts see it as plain data.
#[derive(Drop)]
pub struct ClaimSeat {
    seat: Seat<(), View>,
}

impl Model for ClaimSeat {
    ghost use Rattle.work_pool.specs.Seats.{Claimant};

    ghost Value = { Claimant };

    ghost use Rattle.work_pool.specs.Seats.{claimant, IsClaimant};

    ghost view = { λ s. claimant s.seat };

    ghost invariant = { λ s. IsClaimant s.seat };
}

impl Claims {
    /// The numbers below the count, and the first seat, which has none of them.
    pub fn new(alloc: Global, count: u32) -> Result<(Claims, ClaimSeat), AllocError>
        ensures { IfOk result (λ r. (r.0.count ≡ count) × (r.1 ≡ first_seat r.0)) }
    {
        let (table, seat) = Table::of_words(alloc, &[0], &count)?;
        Ok((Claims { table, count }, ClaimSeat { seat }))
    }

    /// Draws the next number, where one is left.
    pub fn next(&self, seat: &mut ClaimSeat) -> Option<u32>
        requires { seat.old.claims ≡ self.now }
        ensures draws { Draws result seat.old seat.new }
        ensures once { Once seat.new.numbers }
    {
        let shared = &self.table.shared;
        let count = self.count as u64;
        if shared.load::<Look>(&mut seat.seat, 0) >= count {
            return None;
        }
        let number = shared.fetch_add::<Draw>(&mut seat.seat, 0, 1);
        if number >= count {
            return None;
        }
        Some(number as u32)
    }

    /// A further seat, which has no number yet.
    pub fn split(&self, seat: &mut ClaimSeat) -> Result<ClaimSeat, AllocError>
        requires claims { seat.old.claims ≡ self.now }
        requires room { 0 < seat.old.room }
        ensures ok { IsOk result }
        ensures seat { seat.new ≡ splitting seat.old }
        ensures new { IfOk result (λ new. new ≡ split_off seat.old) }
    {
        let new = self.table.shared.split_seat::<Divide>(&mut seat.seat);
        Ok(ClaimSeat { seat: new })
    }

    /// Ends the other seat, whose numbers and room go to this one.
    pub fn join(&self, seat: &mut ClaimSeat, other: ClaimSeat)
        requires { (seat.old.claims ≡ self.now) × (other.claims ≡ self.now) }
        ensures seat { seat.new ≡ joining seat.old other }
        ensures once { Once seat.new.numbers }
    {
        let ClaimSeat { seat: spent } = other;
        let shared = &self.table.shared;
        shared.join_seat::<Merge>(&mut seat.seat, spent);
        shared.load::<Settle>(&mut seat.seat, 0);
    }
}
