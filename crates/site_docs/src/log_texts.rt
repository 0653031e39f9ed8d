//! Logs as text.
ghost use Rattle.std.specs.Prelude.{◌≡◌, ◌++◌, string_bytes, IfOk, OnOk};
ghost use Rattle.site_docs.specs.LogText.{log_line, log_text};

use pp_values::{Memory, Text};
use res_core::{LogLine, LogLines};
use std::alloc::Global;

/// The log as text: for each line, in the order in which they were written, one such as `notice: hello` with a line
/// feed.
pub fn log_text(alloc: Global, log: &LogLines) -> Result<Text, Memory>
    ensures { IfOk result (λ t. t ≡ log_text log.now) }
{
    let mut out = String::new(alloc);
    write_lines(&mut out, log.as_slice())?;
    Ok(Text::new(out))
}

#[tactic(auto, unfolding(crate::specs::LogText::log_text))]
fn write_lines(out: &mut String, lines: &[LogLine]) -> Result<(), Memory>
    ensures { OnOk result (string_bytes out.new ≡ string_bytes out.old ++ log_text lines.now) }
{
    let mut left = lines;
    while let [line, after @ ..] = left {
        write_line(out, line)?;
        left = after;
    }
    Ok(())
}

fn write_line(out: &mut String, line: &LogLine) -> Result<(), Memory>
    ensures { OnOk result (string_bytes out.new ≡ string_bytes out.old ++ log_line line.now) }
{
    out.push_str(line.level.as_str())?;
    out.push_str(": ")?;
    out.push_str(line.text.as_str())?;
    out.push_str("\n")?;
    Ok(())
}
