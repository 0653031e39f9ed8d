//! Texts of types: their lengths in characters, and whether they are among others.
ghost use Rattle.std.specs.Prelude.{◌≡◌};
ghost use Rattle.std.specs.List.{list_all, list_any};
ghost use Rattle.std.specs.Str.{bytes_eq};
ghost use Rattle.pp_types.specs.Lengths.{character_count, has_length};

use crate::range::Range;
use pp_values::Text;

/// How many characters the text has: one for each byte, where all are ASCII.
#[tactic(auto, using(crate::proofs::Ascii::ascii_count))]
pub fn character_count(text: &str) -> usize
    ensures { result ≡ character_count text.now }
{
    if text.is_ascii() {
        return text.len();
    }
    decoded_count(text)
}

fn decoded_count(text: &str) -> usize
    ensures { result ≡ character_count text.now }
{
    text.chars().count()
}

pub fn has_length(range: Range, text: &Text) -> bool
    ensures { result ≡ has_length range text.now }
{
    range.has_count(character_count(text.as_str()))
}

pub fn all_have_length(range: Range, texts: &[Text]) -> bool
    ensures { result ≡ list_all (has_length range) texts.now }
{
    for text in texts {
        if !has_length(range, text) {
            return false;
        }
    }
    true
}

pub fn is_among(text: &Text, texts: &[Text]) -> bool
    ensures { result ≡ list_any (bytes_eq text.now) texts.now }
{
    for other in texts {
        if text == other {
            return true;
        }
    }
    false
}

/// Whether each of the second texts is among the first.
pub fn are_among(texts: &[Text], others: &[Text]) -> bool
    ensures { result ≡ list_all (λ u. list_any (bytes_eq u) texts.now) others.now }
{
    for text in others {
        if !is_among(text, texts) {
            return false;
        }
    }
    true
}
