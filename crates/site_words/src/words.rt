ghost use Rattle.std.specs.Prelude.{◌≡◌, IfOk};
ghost use Rattle.site_words.specs.Asked.{IsWithin};
ghost use Rattle.site_words.specs.Reading.{asked_by, texts_of, IsParsedAs, IsRefusal, Reads};

use crate::command::Command;
use crate::command_line::command_line;
use crate::commands::command_in;
use crate::word_stop::WordStop;
use clap::error::ErrorKind;
use clap::{ArgMatches, Error};
use std::alloc::Global;

/// Reads the words, which come without the program's name.
#[tactic(auto, using(crate::proofs::Simple::stop_reads))]
pub fn read_words<'a>(alloc: Global, words: &'a [String]) -> Result<Command<'a>, WordStop<'a>>
    ensures words { Reads (texts_of words.entry.now) result }
    ensures within { IfOk result (λ command. IsWithin (asked_by command)) }
{
    let matches = parse(alloc, words)?;
    Ok(command_in(&matches)?)
}

fn parse<'a>(alloc: Global, words: &'a [String]) -> Result<ArgMatches<'a>, WordStop<'a>>
    ensures { IsParsedAs (texts_of words.entry.now) result }
{
    let line = command_line(alloc)?;
    match line.try_get_matches_from(words) {
        Ok(matches) => Ok(matches),
        Err(error) => Err(refusal(alloc, &error)),
    }
}

/// What `clap` says, where it wants more than memory.
fn refusal<'a>(alloc: Global, error: &Error) -> WordStop<'a>
    ensures { IsRefusal error.now result }
{
    if error.kind() == ErrorKind::OutOfMemory {
        return WordStop::Memory;
    }
    match error.to_string(alloc) {
        Ok(text) => WordStop::Refused(text),
        Err(_) => WordStop::Memory,
    }
}
