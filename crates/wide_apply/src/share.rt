ghost use Rattle.std.specs.Prelude.{IfOk};
ghost use Rattle.wide_apply.specs.Apart.{Takes, TakesAll};

use crate::apart_turn::ApartTurn;
use crate::taken_turn::TakenTurn;
use agent_machine::Machine;
use pp_values::Memory;
use std::alloc::Global;
use work_pool::Job;

/// The turns that one worker takes, one after another.
#[derive(Drop)]
pub struct Share<P> {
    pub alloc: Global,
    pub turns: Vec<ApartTurn<P>>,
}

/// Takes a turn on its part. A resource that has none is skipped.
fn take_turn<P: Machine + Drop>(alloc: Global, turn: ApartTurn<P>) -> Result<TakenTurn<P>, Memory>
    ensures { IfOk result (λ t. Takes P.Machine.state turn t) }
{
    let ApartTurn {
        at,
        ready,
        is_signalled,
        part,
    } = turn;
    let what = ready.what().copy(alloc)?;
    match part {
        Some(mut part) => {
            let line = ready.turn(is_signalled, &mut part)?;
            Ok(TakenTurn {
                at,
                what,
                line,
                part: Some(part),
            })
        }
        None => Ok(TakenTurn {
            at,
            what,
            line: ready.into_skipped(),
            part: None,
        }),
    }
}

fn take_turns<P: Machine + Drop>(
    alloc: Global,
    turns: Vec<ApartTurn<P>>,
) -> Result<Vec<TakenTurn<P>>, Memory>
    ensures { IfOk result (λ v. TakesAll P.Machine.state turns.items v.items) }
{
    let mut taken = Vec::with_capacity(alloc, turns.len())?;
    for turn in turns {
        taken.push(take_turn(alloc, turn)?)?;
    }
    Ok(taken)
}

impl<P: Machine + Drop> Job for Share<P> {
    ghost use Rattle.std.specs.Prelude.{IfOk};
    ghost use Rattle.wide_apply.specs.Apart.{TakesAll};

    type Out = Result<Vec<TakenTurn<P>>, Memory>;

    ghost promise = { λ s out. IfOk out (λ v. TakesAll P.Machine.state s.turns.items v.items) };

    fn run(self) -> Result<Vec<TakenTurn<P>>, Memory> {
        let Share { alloc, turns } = self;
        take_turns(alloc, turns)
    }
}
