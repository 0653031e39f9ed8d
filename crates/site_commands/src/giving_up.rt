//! How a run ends for which there is no input.
ghost use Rattle.std.specs.Prelude.{◌≡◌, ◌++◌, ◌∷◌, [], codes};
ghost use Rattle.command_outputs.specs.Lines.{line};
ghost use Rattle.site_bundle.specs.Refusals.{stop_line};
ghost use Rattle.site_commands.specs.Inputs.{refused_ending, stop_ending, stop_text};
ghost use Rattle.site_commands.specs.World.{Says};

use crate::ending::Ending;
use crate::input::InputStop;
use crate::say::{say, say_word};
use site_bundle::BundleStop;
use site_io::{ReadStop, Sink};

/// Says why there is no input, and ends so. Where the source has more than is read, this path is told.
pub fn give_up<E: Sink>(stop: &InputStop, whole: &str, err: &mut E) -> Ending
    ensures ending { result ≡ stop_ending stop.now }
    ensures line { Says (line (stop_text whole.now stop.now)) (E.stream err.old) (E.stream err.new) }
{
    match stop {
        InputStop::Unread(ReadStop::Fault) => refuse(err, Ending::ReadFault, "read fault\n"),
        InputStop::Unread(ReadStop::TooLong) => refuse_word(err, Ending::BadInput, "B3 ", whole),
        InputStop::Unread(ReadStop::Memory) => refuse(err, Ending::Memory, "memory\n"),
        InputStop::Refused(why) => give_bundle_up(why, err),
        InputStop::BadLine(number) => {
            refuse_word(err, Ending::BadInput, "bad line ", number.as_str())
        }
        InputStop::TooManyEntries => refuse_word(err, Ending::BadInput, "B3 ", whole),
    }
}

fn give_bundle_up<E: Sink>(stop: &BundleStop, err: &mut E) -> Ending
    ensures ending { result ≡ refused_ending stop.now }
    ensures line { Says (line (stop_line stop.now)) (E.stream err.old) (E.stream err.new) }
{
    match stop {
        BundleStop::NotJson => refuse(err, Ending::BadInput, "B1\n"),
        BundleStop::BadShape(path) => refuse_word(err, Ending::BadInput, "B2 ", path.as_str()),
        BundleStop::TooLarge(path) => refuse_word(err, Ending::BadInput, "B3 ", path.as_str()),
        BundleStop::TreeFault(path) => {
            refuse_word(err, Ending::TreeFault, "tree fault ", path.as_str())
        }
        BundleStop::Memory => refuse(err, Ending::Memory, "memory\n"),
    }
}

/// Says why the run ends so, as far as the error stream takes it.
pub fn refuse<E: Sink>(err: &mut E, ending: Ending, line: &str) -> Ending
    ensures ending { result ≡ ending }
    ensures line { Says line.now (E.stream err.old) (E.stream err.new) }
{
    say(err, line);
    ending
}

/// Says why the run ends so by a line that ends with a word, as far as the error stream takes it.
pub fn refuse_word<E: Sink>(err: &mut E, ending: Ending, start: &str, word: &str) -> Ending
    ensures ending { result ≡ ending }
    ensures line { Says (start.now ++ (word.now ++ 10 ∷ [])) (E.stream err.old) (E.stream err.new) }
{
    say_word(err, start, word);
    ending
}
