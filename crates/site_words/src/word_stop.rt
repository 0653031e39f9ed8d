ghost use Rattle.std.specs.Prelude.{◌≡◌};

use std::alloc::AllocError;

/// Why words ask for nothing.
#[derive(Debug, Drop)]
pub enum WordStop<'a> {
    /// They are those of no command, or ask for help. This is what `clap` says of them, for the user, with its line feeds.
    Refused(String),

    /// This word breaks the rule of its place; of an option it is the value.
    BadWord(&'a str),

    Memory,
}

/// A word that breaks the rule of its place.
#[derive(Clone, Copy, Debug)]
pub struct BadWord<'a> {
    pub word: &'a str,
}

impl<'a> From<BadWord<'a>> for WordStop<'a> {
    ghost use Rattle.site_words.specs.declared.word_stop.WordStop.TheVariants as stop;

    ghost from_gives = { λ bad e. e ≡ stop.BadWord bad.word };

    fn from(bad: BadWord<'a>) -> WordStop<'a> {
        WordStop::BadWord(bad.word)
    }
}

impl<'a> From<AllocError> for WordStop<'a> {
    ghost use Rattle.site_words.specs.declared.word_stop.WordStop.TheVariants as stop;

    ghost from_gives = { λ _ e. e ≡ stop.Memory };

    fn from(_refused: AllocError) -> WordStop<'a> {
        WordStop::Memory
    }
}
