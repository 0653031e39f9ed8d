//! Documents, each behind a line with its kind and its length in bytes.
ghost use Rattle.std.specs.Prelude.{◌<◌, length, IfSome};

use crate::documents::answer;
use json_documents::cut_line;
use pp_values::Memory;
use std::alloc::Global;

/// What is told of each document, in their order.
pub(crate) fn answers(alloc: Global, input: &str) -> Result<String, Memory> {
    let mut told = String::new(alloc);
    let mut left = input;
    while let Some((kind, text, after)) = next_document(left) {
        told.push_str(answer(alloc, kind, text)?.as_str())?;
        left = after;
    }
    Ok(told)
}

/// The kind of the first document, its text, and what stands behind it.
#[tactic(auto, using(crate::proofs::Shorter::behind_is_shorter))]
fn next_document(input: &str) -> Option<(&str, &str, &str)>
    ensures { IfSome result (λ d. length d.2.now < length input.now) }
{
    let (head, behind) = cut_line(input)?;
    let (kind, size) = head.split_once(' ')?;
    let size = size.parse::<usize>().ok()?;
    let (text, after) = behind.split_at_checked(size)?;
    Some((kind, text, after))
}
