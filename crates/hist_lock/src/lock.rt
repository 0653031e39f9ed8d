ghost use Rattle.std.specs.Prelude.{◌≡◌, ◌+◌, ◌<◌, ◌≤◌, ◌%◌, ◌^◌, ◌++◌, [], ◌∷◌, length, All, None, Some, true, false, IsOk, IfOk, IfErr};
ghost use mathlib.Core.List.{IsPrefix};
ghost use Rattle.hist_lock.specs.Calls.{AreCalls, AreAllCalls, IsLonger};
ghost use Rattle.hist_lock.specs.Views.{joined};
ghost use Rattle.hist_lock.specs.Steps.{Seized};
ghost use Rattle.hist_lock.specs.Held.{held, first_pass, taking, giving_back, adding, splitting, split_off, note_of, meeting, joining};

use crate::bells::Bells;
use crate::pass::{Note, Pass};
use crate::rule::{CopyFront, Divide, Draw, Give, GiveWith, LockRule, Look, Merge, Settle};
use crate::stands_for::StandsFor;
use crate::turn::Turn;
use crate::view::View;
use atomic_table::{Refused, Seat, Table};
use std::alloc::{AllocError, AllocFailed, Global};
use std::hint::spin_loop;
use std::marker::Model;
use std::snapshot::Snapshot;
use std::sync::Wait;
use std::thread::yield_now;

/// The most authors of one lock.
const AUTHORS: u32 = 65_536;

/// How often whoever gave a turn back looks whether all who have tickets had theirs.
const LOOKS_ASIDE: u32 = 24;

/// The first of these looks are parted by pauses, each twice as long as the one before, the others by yields.
const PAUSES: u32 = 8;

/// A ticket is near where no more than so many turns end before it is served.
const NEAR: u64 = 4;

/// How often the holder of a near ticket looks for the end of a turn before it sleeps.
const LOOKS: u32 = 500;

/// A lock round a value that stands for a list of entries. Its turns go by tickets, in the order in which
/// they were asked for. Contracts see which lock it is.
#[derive(Drop)]
pub struct HistLock<V: StandsFor + Drop> {
    table: Table<Option<V>, View<V::Entry>, Snapshot<V>, LockRule<V>, Global>,
    bells: Bells,
}

impl<V: StandsFor + Drop> Model for HistLock<V> {
    ghost use Rattle.std.specs.Prelude.{◌≡◌};
    ghost use Rattle.hist_lock.specs.Held.{LockId};

    ghost Value = { LockId };

    ghost view = { λ l. l.table.shared.table_id };

    ghost invariant = { λ l. (l.table.shared.table_id.words ≡ 2) × (l.table.shared.table_id.slots ≡ 1) };
}

impl<V: StandsFor + Drop> HistLock<V> {
    /// A lock round the value, and its first pass. Where memory is wanting the value comes back.
    pub fn new(alloc: Global, value: V) -> Result<(HistLock<V>, Pass<V>), AllocFailed<V>>
        requires { All (λ e. V.author e ≡ None) (V.entries value) }
        ensures ok { IfOk result (λ r. r.1 ≡ first_pass r.0 (V.entries value)) }
        ensures err { IfErr result (λ refused. refused.value ≡ value) }
    {
        let key = Snapshot::of(&value);
        let mut slots = match Vec::with_capacity(alloc, 1) {
            Ok(slots) => slots,
            Err(_) => return Err(AllocFailed { value }),
        };
        slots.push_reserved(Some(value));
        match Table::new(alloc, &[0, 0], slots, &key) {
            Ok((table, seat)) => Ok((
                HistLock {
                    table,
                    bells: Bells::new(),
                },
                Pass {
                    seat,
                    room: AUTHORS - 1,
                    author: 0,
                },
            )),
            Err(Refused { slots: mut back }) => {
                let Some(Some(value)) = back.pop() else {
                    unreachable!()
                };
                Err(AllocFailed { value })
            }
        }
    }

    /// Waits until each turn that was asked for before this one was given back. It looks on for a while where
    /// few are before it, and sleeps after that.
    pub fn take<R: Wait>(&self, rt: &R, pass: &mut Pass<V>) -> Turn<V>
        requires lock { pass.old.lock ≡ self.now }
        requires idle { pass.old.turn ≡ false }
        ensures pass { pass.new ≡ taking pass.old (V.entries result.value) }
        ensures before { IsPrefix pass.old.front (V.entries result.value) }
        ensures own { AreCalls V.author pass.new.calls pass.new.numbers pass.new.front }
    {
        let shared = &self.table.shared;
        let ticket = shared.fetch_add::<Draw>(&mut pass.seat, 1, 1);
        self.wait_for(rt, &mut pass.seat, ticket);
        let Some(value) = shared.exchange(&mut pass.seat, 0, None) else {
            unreachable!()
        };
        Turn { value }
    }

    // Returns once the ticket is served, with the slot.
    fn wait_for<R: Wait>(&self, rt: &R, seat: &mut Seat<Option<V>, View<V::Entry>>, ticket: u64)
        requires table { seat.old.table_id ≡ self.now }
        requires waits { (seat.old.me.0.waits ≡ true) × (seat.old.me.0.holds ≡ false) × (seat.old.me.0.ticket % 2 ^ 64 ≡ ticket) }
        ensures table { (seat.new.table_id ≡ seat.old.table_id) × (seat.new.id ≡ seat.old.id) }
        ensures seized { Seized V.entries V.author seat.old.me seat.new.me }
    {
        let shared = &self.table.shared;
        for _ in rt.forever() {
            let served = shared.load::<Look<V>>(seat, 0);
            if served == ticket {
                return;
            }
            if !self.ends_soon(ticket, served) {
                self.sleep(rt, ticket);
            }
        }
        unreachable!()
    }

    // Whether the turn that is served now ended while the holder of a near ticket looked on.
    fn ends_soon(&self, ticket: u64, served: u64) -> bool {
        if ticket.wrapping_sub(served) > NEAR {
            return false;
        }
        let shared = &self.table.shared;
        for _ in 0..LOOKS {
            if shared.peek(0) != served {
                return true;
            }
            spin_loop();
        }
        false
    }

    // Sleeps until the ticket's bell is rung, unless the ticket is served already.
    fn sleep<R: Wait>(&self, rt: &R, ticket: u64) {
        let bell = self.bells.of(ticket);
        let rings = bell.lie_down();
        if self.table.shared.peek(0) != ticket {
            bell.sleep(rt, rings);
        }
        bell.get_up();
    }

    /// Ends a turn that changed nothing. Where others wait it returns a little later, so that they come first.
    pub fn give(&self, pass: &mut Pass<V>, turn: Turn<V>)
        requires lock { pass.old.lock ≡ self.now }
        requires turn { pass.old.turn ≡ true }
        requires list { V.entries turn.value ≡ pass.old.front }
        ensures { pass.new ≡ giving_back pass.old }
    {
        let Turn { value } = turn;
        let shared = &self.table.shared;
        drop(shared.exchange(&mut pass.seat, 0, Some(value)));
        let served = shared.fetch_add::<Give>(&mut pass.seat, 0, 1);
        self.wake_next(served);
    }

    /// Ends a turn that added one entry of the pass's own author, and leaves the lock to others as `give` does.
    pub fn give_with(&self, pass: &mut Pass<V>, turn: Turn<V>)
        requires lock { pass.old.lock ≡ self.now }
        requires turn { pass.old.turn ≡ true }
        requires list { (e : V.Entry) × (V.entries turn.value ≡ pass.old.front ++ e ∷ []) × (V.author e ≡ Some pass.old.author) }
        ensures pass { pass.new ≡ adding pass.old (V.entries turn.value) }
        ensures own { AreCalls V.author pass.new.calls pass.new.numbers pass.new.front }
    {
        let Turn { value } = turn;
        let shared = &self.table.shared;
        drop(shared.exchange(&mut pass.seat, 0, Some(value)));
        let served = shared.fetch_add::<GiveWith<V>>(&mut pass.seat, 0, 1);
        self.wake_next(served);
    }

    // Wakes the holder of the next ticket, if it sleeps, and leaves the lock to those who have tickets. Whoever
    // lies down after the look at the bell sees in word 0 that its ticket is served, and stays awake.
    fn wake_next(&self, served: u64) {
        self.bells.of(served.wrapping_add(1)).wake();
        self.step_aside();
    }

    // Returns once nobody has a ticket, or after the last look. A thread that asked again at once would have the
    // turn go to and fro between processors, which costs many times as much as a turn.
    fn step_aside(&self) {
        let shared = &self.table.shared;
        for round in 0..LOOKS_ASIDE {
            if shared.peek(0) == shared.peek(1) {
                return;
            }
            rest(round);
        }
    }

    /// A pass for a new author, of the room that this one has. It waits for nobody, and the turn stays.
    pub fn split(&self, pass: &mut Pass<V>, turn: &mut Turn<V>) -> Result<Pass<V>, AllocError>
        requires lock { pass.old.lock ≡ self.now }
        requires turn { pass.old.turn ≡ true }
        requires list { V.entries turn.old.value ≡ pass.old.front }
        requires room { 0 < pass.old.room }
        ensures ok { IsOk result }
        ensures pass { pass.new ≡ splitting pass.old }
        ensures new { IfOk result (λ new. new ≡ split_off pass.old) }
        ensures turn { turn.new ≡ turn.old }
    {
        let shared = &self.table.shared;
        let mut seat = shared.split_seat::<Divide>(&mut pass.seat);
        shared.load::<Settle<V>>(&mut seat, 0);
        let author = AUTHORS - pass.room;
        pass.room -= 1;
        Ok(Pass {
            seat,
            room: 0,
            author,
        })
    }

    /// A note of what the pass has seen.
    pub fn note(&self, pass: &mut Pass<V>) -> Result<Note<V>, AllocError>
        requires { pass.old.lock ≡ self.now }
        ensures ok { IsOk result }
        ensures pass { pass.new ≡ pass.old }
        ensures note { IfOk result (λ note. note ≡ note_of pass.old) }
    {
        let seat = self.table.shared.split_seat::<CopyFront>(&mut pass.seat);
        Ok(Note { seat })
    }

    /// What the note's pass had seen, this one has seen too.
    pub fn meet(&self, pass: &mut Pass<V>, note: Note<V>)
        requires lock { (pass.old.lock ≡ self.now) × (note.lock ≡ self.now) }
        ensures pass { pass.new ≡ meeting pass.old pass.new.front }
        ensures front { IsLonger pass.old.front note.front pass.new.front }
        ensures own { AreCalls V.author pass.new.calls pass.new.numbers pass.new.front }
    {
        let Note { seat } = note;
        self.merge(&mut pass.seat, seat);
    }

    /// Ends the other pass, whose authors, room and calls go to this one.
    pub fn join(&self, pass: &mut Pass<V>, other: Pass<V>)
        requires lock { (pass.old.lock ≡ self.now) × (other.lock ≡ self.now) }
        requires idle { (pass.old.turn ≡ false) × (other.turn ≡ false) }
        ensures pass { pass.new ≡ joining pass.old other pass.new.front }
        ensures front { IsLonger pass.old.front other.front pass.new.front }
        ensures own { AreCalls V.author pass.new.calls pass.new.numbers pass.new.front }
    {
        let Pass {
            seat,
            room,
            author: _,
        } = other;
        self.merge(&mut pass.seat, seat);
        pass.room += room;
    }

    // Takes the other seat in.
    fn merge(
        &self,
        seat: &mut Seat<Option<V>, View<V::Entry>>,
        other: Seat<Option<V>, View<V::Entry>>,
    )
        requires lock { (seat.old.table_id ≡ self.now) × (other.table_id ≡ self.now) }
        requires idle { (other.me.0.waits ≡ false) × (other.me.0.holds ≡ false) × (other.me.1 ≡ []) }
        ensures lock { seat.new.table_id ≡ seat.old.table_id }
        ensures seat { seat.new.me ≡ (joined seat.old.me.0 other.me.0, seat.old.me.1) }
        ensures front { IsLonger seat.old.me.0.front other.me.0.front seat.new.me.0.front }
        ensures own { AreCalls V.author seat.new.me.0.calls seat.new.me.0.numbers seat.new.me.0.front }
        ensures few { seat.new.me.0.room + length seat.new.me.0.numbers ≤ 65536 }
    {
        let shared = &self.table.shared;
        shared.join_seat::<Merge>(seat, other);
        shared.load::<Settle<V>>(seat, 0);
    }

    /// Gives the value out, once all passes that were split are joined again.
    pub fn close(self, pass: Pass<V>) -> V
        requires lock { pass.lock ≡ self }
        requires idle { pass.turn ≡ false }
        requires all { pass.room + held pass ≡ 65536 }
        ensures front { IsPrefix pass.front (V.entries result) }
        ensures all { AreAllCalls V.author pass.calls (V.entries result) }
    {
        let HistLock { table, bells: _ } = self;
        let Pass {
            seat,
            room: _,
            author: _,
        } = pass;
        let mut closed = table.close_with(seat);
        let Some(value) = closed.take(0) else {
            unreachable!()
        };
        closed.free();
        value
    }
}

// What lies between two looks at the lock. Where there are more threads than processors a yield lets those run
// that are waited for.
fn rest(round: u32) {
    if round >= PAUSES {
        yield_now();
        return;
    }
    for _ in 0..1u32 << round {
        spin_loop();
    }
}
