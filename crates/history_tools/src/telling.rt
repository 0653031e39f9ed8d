//! What the replies of a round come to.
ghost use Rattle.std.specs.Prelude.{◌≡◌, IfOk, Some};
ghost use Rattle.site_core.specs.Each.{Each};
ghost use Rattle.history_tools.specs.Rounds.{IsTold, ComesTo, or_refused, or_full, with_reply};

use crate::outcome::Outcome;
use pp_values::Memory;
use site_core::ReplyOf;

/// What the replies come to, unless memory was wanting for one of them.
pub fn outcome_of<C: Drop, F: Drop>(replies: Vec<ReplyOf<C, F>>) -> Result<Outcome<F>, Memory>
    requires { Each IsTold replies.items }
    ensures { IfOk result (λ o. ComesTo replies.items o) }
{
    let mut outcome = Outcome::Whole;
    let mut place = 0;
    for reply in replies {
        outcome = with_reply(outcome, place, reply)?;
        place += 1;
    }
    Ok(outcome)
}

/// The outcome with one reply more, in this place.
fn with_reply<C: Drop, F: Drop>(
    so_far: Outcome<F>,
    place: usize,
    reply: ReplyOf<C, F>,
) -> Result<Outcome<F>, Memory>
    requires { IsTold reply }
    ensures { IfOk result (λ o. with_reply so_far place reply ≡ Some o) }
{
    match reply {
        ReplyOf::Served { .. } => Ok(so_far),
        ReplyOf::Refused { k, fault } => Ok(or_refused(so_far, place, k, fault)),
        ReplyOf::HistoryFull { length } => Ok(or_full(so_far, length)),
        ReplyOf::Memory => Err(Memory),
        ReplyOf::SeenAhead { .. }
        | ReplyOf::UnknownNode { .. }
        | ReplyOf::Deactivated { .. }
        | ReplyOf::Deployed { .. }
        | ReplyOf::Reported { .. } => unreachable!(),
    }
}

/// A refusal in this place, unless there was one before.
fn or_refused<F: Drop>(so_far: Outcome<F>, place: usize, k: u32, fault: F) -> Outcome<F>
    ensures { result ≡ or_refused so_far place k fault }
{
    match so_far {
        Outcome::Whole => Outcome::Refused { place, k, fault },
        Outcome::Full { length: _ } => Outcome::Refused { place, k, fault },
        earlier => earlier,
    }
}

/// A full history, unless there was a refusal.
fn or_full<F: Drop>(so_far: Outcome<F>, length: u32) -> Outcome<F>
    ensures { result ≡ or_full so_far length }
{
    match so_far {
        Outcome::Whole => Outcome::Full { length },
        Outcome::Full { length: _ } => Outcome::Full { length },
        refused => refused,
    }
}
