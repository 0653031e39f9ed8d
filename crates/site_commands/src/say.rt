ghost use Rattle.std.specs.Prelude.{◌++◌, ◌∷◌, []};
ghost use Rattle.site_commands.specs.World.{Says};

use site_io::{Sink, write_all};

/// Writes an error line, as far as the sink takes it: the status tells the cause, whether it is read or not.
pub fn say<E: Sink>(err: &mut E, line: &str)
    ensures { Says line.now (E.stream err.old) (E.stream err.new) }
{
    let _ = write_all(err, line.as_bytes());
}

/// Writes an error line that ends with a word, in pieces, so that it takes no memory.
pub fn say_word<E: Sink>(err: &mut E, start: &str, word: &str)
    ensures { Says (start.now ++ (word.now ++ 10 ∷ [])) (E.stream err.old) (E.stream err.new) }
{
    match write_all(err, start.as_bytes()) {
        Ok(()) => say_ended(err, word),
        Err(_) => {}
    }
}

fn say_ended<E: Sink>(err: &mut E, word: &str)
    ensures { Says (word.now ++ 10 ∷ []) (E.stream err.old) (E.stream err.new) }
{
    match write_all(err, word.as_bytes()) {
        Ok(()) => say(err, "\n"),
        Err(_) => {}
    }
}
