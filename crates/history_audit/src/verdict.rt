ghost use Rattle.std.specs.Prelude.{◌≡◌, IfOk};
ghost use Rattle.history_audit.specs.VerdictTexts.{part_word, entry_form, verdict_form};

use pp_values::{Memory, Text};
use std::alloc::Global;

/// What an audit of a history comes to.
#[derive(Clone, Copy, Debug, PartialEq, Eq)]
pub enum Verdict {
    /// It is legal, and has so many entries.
    Legal(u32),
    /// The first entry that breaks a rule, counted from 0, and what the first rule that it breaks speaks of.
    Broken { entry: u32, part: Part },
}

/// What a rule of entries speaks of, in the order of the rules.
#[derive(Clone, Copy, Debug, PartialEq, Eq)]
pub enum Part {
    /// An entry's number among those of its author.
    Call,
    /// How many entries a publication was made from: at least one, and not more than stand before it.
    K,
    /// These entries mean no fault for its node.
    Fault,
    /// Its set is the exports of that meaning.
    Set,
}

/// `legal` with the number of entries, or `entry` with the entry's number and a word for the part: `call`, `k`, `fault`
/// or `set`. No line feed stands at the end.
pub fn verdict_text(alloc: Global, verdict: &Verdict) -> Result<Text, Memory>
    ensures { IfOk result (λ t. t ≡ verdict_form verdict.now) }
{
    match verdict {
        Verdict::Legal(count) => Ok(Text::new(format!(in alloc; "legal {count}")?)),
        Verdict::Broken { entry, part } => {
            let word = part_word(*part);
            entry_text(alloc, *entry, word)
        }
    }
}

fn entry_text(alloc: Global, entry: u32, word: &str) -> Result<Text, Memory>
    ensures { IfOk result (λ t. t ≡ entry_form entry word.now) }
{
    Ok(Text::new(format!(in alloc; "entry {entry} {word}")?))
}

fn part_word(part: Part) -> &'static str
    ensures { result.now ≡ part_word part }
{
    match part {
        Part::Call => "call",
        Part::K => "k",
        Part::Fault => "fault",
        Part::Set => "set",
    }
}
