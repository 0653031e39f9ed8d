// Where those sleep whose ticket is not served yet. No proof speaks of it: whether a bell is rung decides how
// long somebody sleeps, and never who has the turn.

use std::sync::Wait;
use std::sync::atomic::AtomicU64;
use std::sync::atomic::Ordering::SeqCst;

/// How many bells there are.
const BELLS: usize = 8;

/// A bell for each ticket, shared by tickets that are a multiple of their count apart.
#[derive(Drop)]
pub struct Bells {
    bells: [Bell; BELLS],
}

impl Bells {
    pub fn new() -> Bells {
        Bells {
            bells: [
                Bell::new(),
                Bell::new(),
                Bell::new(),
                Bell::new(),
                Bell::new(),
                Bell::new(),
                Bell::new(),
                Bell::new(),
            ],
        }
    }

    /// The bell of the ticket.
    pub fn of(&self, ticket: u64) -> &Bell {
        &self.bells[ticket as usize % BELLS]
    }
}

/// A bell, which wakes all who sleep by it.
#[derive(Drop)]
pub struct Bell {
    // How many have lain down and not got up since.
    sleepers: AtomicU64,
    // How often it was rung. Who sleeps, sleeps on this word.
    rings: AtomicU64,
}

impl Bell {
    fn new() -> Bell {
        Bell {
            sleepers: AtomicU64::new(0),
            rings: AtomicU64::new(0),
        }
    }

    /// Makes known that somebody is about to sleep, so that the next ring isn't left out, and gives the count
    /// of rings until now. Whoever calls it looks once more whether there is anything to wait for.
    pub fn lie_down(&self) -> u32 {
        self.sleepers.fetch_add(1, SeqCst);
        (self.rings.load(SeqCst) & 0xffff_ffff) as u32
    }

    /// Sleeps until a ring, where none came since that count was taken. It may also return for no reason.
    pub fn sleep<R: Wait>(&self, rt: &R, rings: u32) {
        self.rings.park(rt, rings);
    }

    /// Takes back what `lie_down` made known.
    pub fn get_up(&self) {
        self.sleepers.fetch_sub(1, SeqCst);
    }

    /// Wakes all who have lain down. Where nobody has, it costs a look.
    pub fn wake(&self) {
        if self.sleepers.load(SeqCst) == 0 {
            return;
        }
        self.rings.fetch_add(1, SeqCst);
        self.rings.wake_all();
    }
}
