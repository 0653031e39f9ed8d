ghost use Rattle.std.specs.Prelude.{◌≡◌, ◌+◌, ◌≤◌, Some, slice_get};
ghost use Rattle.hist_lock.specs.Calls.{AreCalls};
ghost use Rattle.hist_lock.specs.Held.{held};

use crate::stands_for::StandsFor;
use crate::view::View;
use atomic_table::Seat;
use std::marker::Model;

/// The right to take turns of one lock, and what its holder has seen and written there. Contracts see it as
/// plain data. A pass that is dropped keeps its authors for ever, so that the lock can't be closed.
#[derive(Drop)]
pub struct Pass<V: StandsFor> {
    pub(crate) seat: Seat<Option<V>, View<V::Entry>>,
    pub(crate) room: u32,
    pub(crate) author: u32,
}

impl<V: StandsFor> Model for Pass<V> {
    ghost use Rattle.hist_lock.specs.Held.{Held};

    ghost Value = { Held V.Entry };

    ghost use Rattle.hist_lock.specs.Passes.{held_by, IsPass};

    ghost view = { λ p. held_by p.seat p.author };

    ghost invariant = { λ p. IsPass V.author p.seat p.room p.author };
}

impl<V: StandsFor> Pass<V> {
    /// The number of its own author.
    pub fn author(&self) -> u32
        ensures { result ≡ self.now.author }
    {
        self.author
    }

    /// What is true of every pass. It does nothing.
    pub fn keeps(&self)
        ensures own { AreCalls V.author self.now.calls self.now.numbers self.now.front }
        ensures author { slice_get self.now.numbers 0 ≡ Some self.now.author }
        ensures few { self.now.room + held self.now ≤ 65536 }
    {
        let _room = self.room;
    }
}

/// What a pass had seen, for another pass.
#[derive(Drop)]
pub struct Note<V: StandsFor> {
    pub(crate) seat: Seat<Option<V>, View<V::Entry>>,
}

impl<V: StandsFor> Model for Note<V> {
    ghost use Rattle.hist_lock.specs.Held.{Noted};

    ghost Value = { Noted V.Entry };

    ghost use Rattle.hist_lock.specs.Passes.{noted_by, IsNote};

    ghost view = { λ n. noted_by n.seat };

    ghost invariant = { λ n. IsNote n.seat };
}
