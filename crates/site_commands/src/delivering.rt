//! Output on its way out.
ghost use Rattle.std.specs.Prelude.{◌≡◌, OnOk, OnErr};
ghost use Rattle.site_io.specs.Stream.{HasWritten};
ghost use Rattle.site_commands.specs.Work.{Delivers, FailsBoth, HasLogged, WritesLogged};
ghost use Rattle.site_commands.specs.World.{FailsToSay};

use crate::ending::Ending;
use crate::giving_up::refuse;
use command_outputs::Output;
use pp_values::Text;
use site_io::{Sink, WriteFault, write_all};

/// Writes the output.
pub fn deliver<K: Sink, E: Sink>(output: &Output, out: &mut K, err: &mut E) -> Ending
    ensures { Delivers result output.now (K.stream out.old) (K.stream out.new) (E.stream err.old) (E.stream err.new) }
{
    match output {
        Output::Done(text) => match write_all(out, text.as_str().as_bytes()) {
            Ok(()) => Ending::Done,
            Err(_) => Ending::WriteFault,
        },
        Output::Compiled { log, text } => deliver_compiled(log, text, out, err),
        Output::Refused(text) => match write_all(out, text.as_str().as_bytes()) {
            Ok(()) => Ending::Refused,
            Err(_) => Ending::WriteFault,
        },
        Output::Faulty { text, line } => match write_both(text, line, out, err) {
            Ok(()) => Ending::Refused,
            Err(_) => Ending::WriteFault,
        },
        Output::Unsettled { text, line } => match write_both(text, line, out, err) {
            Ok(()) => Ending::NotSettled,
            Err(_) => Ending::WriteFault,
        },
        Output::Short(text) => match write_all(out, text.as_str().as_bytes()) {
            Ok(()) => refuse(err, Ending::Memory, "memory\n"),
            Err(_) => Ending::WriteFault,
        },
        Output::Fault(line) => match write_all(err, line.as_str().as_bytes()) {
            Ok(()) => Ending::Refused,
            Err(_) => Ending::WriteFault,
        },
        Output::BadInput(line) => refuse(err, Ending::BadInput, line.as_str()),
    }
}

/// Writes the log and then the output, which is not begun where the log can't be written.
fn deliver_compiled<K: Sink, E: Sink>(log: &Text, text: &Text, out: &mut K, err: &mut E) -> Ending
    ensures { WritesLogged result log.now text.now (K.stream out.old) (K.stream out.new) (E.stream err.old)
        (E.stream err.new) }
{
    match write_log(err, log.as_str()) {
        Ok(()) => match write_all(out, text.as_str().as_bytes()) {
            Ok(()) => Ending::Done,
            Err(_) => Ending::WriteFault,
        },
        Err(_) => Ending::WriteFault,
    }
}

/// Writes the output, and then a line to the error stream, which is not begun where the output can't be written.
fn write_both<K: Sink, E: Sink>(
    text: &Text,
    line: &Text,
    out: &mut K,
    err: &mut E,
) -> Result<(), WriteFault>
    ensures all { OnOk result (HasWritten text.now (K.stream out.old) (K.stream out.new)
        × HasWritten line.now (E.stream err.old) (E.stream err.new)) }
    ensures part { OnErr result (FailsBoth text.now line.now (K.stream out.old) (K.stream out.new) (E.stream err.old)
        (E.stream err.new)) }
{
    match write_all(out, text.as_str().as_bytes()) {
        Ok(()) => match write_all(err, line.as_str().as_bytes()) {
            Ok(()) => Ok(()),
            Err(fault) => Err(fault),
        },
        Err(fault) => Err(fault),
    }
}

/// Writes a log. One without lines leaves the error stream alone.
pub fn write_log<E: Sink>(err: &mut E, log: &str) -> Result<(), WriteFault>
    ensures all { OnOk result (HasLogged log.now (E.stream err.old) (E.stream err.new)) }
    ensures part { OnErr result (FailsToSay log.now (E.stream err.old) (E.stream err.new)) }
{
    if log.is_empty() {
        return Ok(());
    }
    write_all(err, log.as_bytes())
}
