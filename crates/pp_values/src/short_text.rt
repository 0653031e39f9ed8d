ghost use Rattle.std.specs.Prelude.{◌≡◌, ◌<◌, length, MatchOption};
ghost use Rattle.pp_values.specs.declared.short_text.TheConstants.{MOST_BYTES};

use std::marker::Model;

/// How many bytes lie in a short text at most.
const MOST_BYTES: usize = 30;

/// A text of a few bytes, which lie in the value itself. A contract sees it as its bytes in UTF-8.
///
/// The length takes one byte, so nothing is lost to alignment: beside a tag the whole is 32 bytes.
#[derive(Drop)]
pub(crate) struct ShortText {
    bytes: [u8; MOST_BYTES],
    len: u8,
}

impl Model for ShortText {
    ghost use Rattle.std.specs.Prelude.{◌≤◌, ℕ, List, take, IsUtf8};
    ghost use Rattle.pp_values.specs.declared.short_text.TheConstants.{MOST_BYTES};

    ghost Value = { List ℕ };

    ghost view = { λ s. take s.len s.bytes };

    ghost invariant = { λ s. (s.len ≤ MOST_BYTES) × ∥ IsUtf8 (take s.len s.bytes) ∥₁ };
}

impl ShortText {
    /// The text, or none where it is too long.
    pub(crate) fn from_str(text: &str) -> Option<ShortText>
        ensures { MatchOption result (MOST_BYTES < length text.now) (λ s. s ≡ text.now) }
    {
        let from = text.as_bytes();
        if from.len() > MOST_BYTES {
            return None;
        }
        let mut bytes = [0; MOST_BYTES];
        bytes[..from.len()].copy_from_slice(from);
        Some(ShortText {
            bytes,
            len: from.len() as u8,
        })
    }

    pub(crate) fn copy(&self) -> ShortText
        ensures { result ≡ self.now }
    {
        ShortText {
            bytes: self.bytes,
            len: self.len,
        }
    }

    pub(crate) fn as_str(&self) -> &str
        ensures { result.now ≡ self.now }
    {
        unsafe { std::str::from_utf8_unchecked(&self.bytes[..self.len as usize]) }
    }
}
