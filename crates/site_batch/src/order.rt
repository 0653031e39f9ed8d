//! Replies in the order of their requests.
ghost use Rattle.std.specs.Prelude.{◌≡◌, ◌<◌, ◌^◌, length, slice_get, slice_set, replicate, Some, None, IfOk};
ghost use Rattle.site_batch.specs.Answers.{AreAll, AreFilled, AreOrdered, somes};

use crate::answered::Answered;
use std::alloc::{AllocError, Global};

/// The replies of all answers, each in the place of its request.
#[tactic(auto, using(crate::proofs::Opened::ordered))]
pub fn in_order<T: Drop>(
    alloc: Global,
    answers: Vec<Answered<T>>,
    count: usize,
) -> Result<Vec<T>, AllocError>
    requires { AreAll count answers.items }
    ensures { IfOk result (λ replies. AreOrdered count answers.items replies.items) }
{
    let slots = filled(empty_slots(alloc, count)?, answers, count);
    opened(alloc, slots)
}

/// As many empty places.
#[tactic(auto, using(crate::proofs::Slots::replicate_more))]
fn empty_slots<T: Drop>(alloc: Global, count: usize) -> Result<Vec<Option<T>>, AllocError>
    ensures { IfOk result (λ slots. slots.items ≡ replicate count None) }
{
    let mut slots = Vec::with_capacity(alloc, count)?;
    for _place in 0..count {
        slots.push(None)?;
    }
    Ok(slots)
}

/// The places with each answer's reply in its own.
fn filled<T: Drop>(
    mut slots: Vec<Option<T>>,
    mut answers: Vec<Answered<T>>,
    count: usize,
) -> Vec<Option<T>>
    requires slots { slots.items ≡ replicate count None }
    requires all { AreAll count answers.items }
    ensures { AreFilled count answers.items result.items }
{
    while let Some(answer) = answers.pop() {
        put_reply(&mut slots, answer.index as usize, answer.reply);
    }
    slots
}

fn put_reply<T: Drop>(slots: &mut Vec<Option<T>>, place: usize, reply: T)
    requires { place < length slots.old.items }
    ensures { slots.new.items ≡ slice_set slots.old.items place (Some reply) }
{
    slots[place] = Some(reply);
}

/// The replies in the places that are not empty.
fn opened<T: Drop>(alloc: Global, slots: Vec<Option<T>>) -> Result<Vec<T>, AllocError>
    ensures { IfOk result (λ replies. replies.items ≡ somes slots.items) }
{
    let mut replies = Vec::with_capacity(alloc, slots.len())?;
    for slot in slots {
        match slot {
            Some(reply) => replies.push(reply)?,
            None => {}
        }
    }
    Ok(replies)
}
