use agent_machine::{Holds, Machine, MachineDoc, WideMachine, Wrote};
use pp_values::{Memory, Reference, Text, Value};
use std::sync::atomic::{AtomicU64, Ordering};

/// A machine whose refresh looks so many times at a word, which no other part has. It tells nothing of what it holds.
///
/// No call of a machine may sleep, so the refresh keeps its processor busy.
#[derive(Drop)]
pub struct Slow {
    word: AtomicU64,
    looks: u64,
}

impl Slow {
    pub fn new(looks: u64) -> Slow {
        Slow {
            word: AtomicU64::new(0),
            looks,
        }
    }

    /// Looks as often as is wanted. The word stays 0.
    fn look(&self) {
        for _look in 0..self.looks {
            if self.word.load(Ordering::SeqCst) != 0 {
                return;
            }
        }
    }
}

impl Machine for Slow {
    ghost use Rattle.std.specs.Prelude.{None};

    ghost state = { λ _. record { content = None; faults = 0 } };

    fn load(&mut self, _document: MachineDoc) {}

    fn holds(&mut self, _what: &Reference, _name: &Text, _value: &Value) -> Holds {
        Holds::Yes
    }

    fn write(&mut self, _what: &Reference, _name: &Text, _value: &Value) -> Wrote {
        Wrote::Done
    }

    fn refresh(&mut self, _what: &Reference) -> Holds {
        self.look();
        Holds::Yes
    }

    fn document(&self) -> Option<&MachineDoc> {
        None
    }
}

impl WideMachine for Slow {
    type Part = Slow;

    fn part(&mut self, _what: &Reference, _creates: Option<&Text>) -> Result<Slow, Memory> {
        Ok(Slow::new(self.looks))
    }

    fn put_back(&mut self, _what: &Reference, _part: Slow) -> Result<(), Memory> {
        Ok(())
    }
}
