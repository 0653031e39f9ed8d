//! Turns of a function, as they are taken one after another.
ghost use Rattle.std.specs.Prelude.{◌≡◌, ◌∷◌, [], reverse, IfOk, MatchOption};

use expr_eval::Turns;
use pp_values::{Memory, Values};
use std::alloc::Global;
use std::marker::Model;

/// The turns that are left. Each moves out when it is taken.
pub struct TurnQueue {
    /// From the last one to the next one.
    behind: Turns,
}

// By hand, so that letting one go is one step for whoever holds it.
impl Drop for TurnQueue {
    fn drop(self) {
        let TurnQueue { behind: _behind } = self;
    }
}

impl Model for TurnQueue {
    ghost use Rattle.std.specs.Prelude.{List, reverse};
    ghost use Rattle.std.specs.Coded.{coded_list};
    ghost use Rattle.pp_values.specs.Codes.{coded_data};
    ghost use Rattle.pp_values.specs.Datum.{Datum};

    ghost Value = { List (List Datum) };

    ghost coded = { coded_list coded_data };

    ghost view = { λ q. reverse q.behind };
}

impl TurnQueue {
    /// All of these.
    pub fn new(alloc: Global, turns: Turns) -> Result<TurnQueue, Memory>
        ensures { IfOk result (λ q. q ≡ turns) }
    {
        let behind = turned(alloc, turns)?;
        Ok(TurnQueue { behind })
    }

    /// Takes the next one.
    #[tactic(auto, using(crate::proofs::Turned::last_first))]
    pub fn take(&mut self) -> Option<Values>
        ensures { MatchOption result ((self.old ≡ []) × (self.new ≡ [])) (λ t. self.old ≡ t ∷ self.new) }
    {
        self.behind.pop()
    }
}

/// The turns from the last one to the first one.
#[tactic(auto, using(crate::proofs::Turned::turn_moved))]
fn turned(alloc: Global, turns: Turns) -> Result<Turns, Memory>
    ensures { IfOk result (λ t. reverse t ≡ turns) }
{
    let mut left = turns;
    let mut behind = Vec::with_capacity(alloc, left.len())?;
    while let Some(turn) = left.pop() {
        behind.push(turn)?;
    }
    Ok(Turns::from_vec(behind))
}
