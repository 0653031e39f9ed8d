//! How connections ended, as lines.
ghost use Rattle.std.specs.Prelude.{◌≡◌, ◌++◌, IfOk, OnOk, option_map, string_bytes};
ghost use Rattle.site_commands.specs.Serving as spec;

use http_wire::H;
use pp_values::{Memory, Text};
use site_serve::ConnEnd;
use std::alloc::Global;

/// A line such as `connection 3 write fault` for each connection that was not closed, of which the first has number 1.
pub fn end_lines(alloc: Global, ends: &[ConnEnd]) -> Result<Text, Memory>
    ensures { IfOk result (λ text. text ≡ spec.end_lines 1 ends.now) }
{
    let mut out = String::new(alloc);
    write_ends(alloc, &mut out, ends)?;
    Ok(Text::new(out))
}

#[tactic(auto, unfolding(crate::specs::Serving::end_lines))]
fn write_ends(alloc: Global, out: &mut String, ends: &[ConnEnd]) -> Result<(), Memory>
    ensures { OnOk result (string_bytes out.new ≡ string_bytes out.old ++ spec.end_lines 1 ends.now) }
{
    let mut number: usize = 1;
    let mut left = ends;
    while let [end, after @ ..] = left {
        write_end(alloc, out, number, *end)?;
        // More connections than can be counted find no room.
        let Some(next) = number.checked_add(1) else {
            return Err(Memory);
        };
        number = next;
        left = after;
    }
    Ok(())
}

fn write_end(alloc: Global, out: &mut String, number: usize, end: ConnEnd) -> Result<(), Memory>
    ensures { OnOk result (string_bytes out.new ≡ string_bytes out.old ++ spec.end_line number (spec.end_word end)) }
{
    match end_word(end) {
        Some(word) => {
            let line = connection_line(alloc, number, word)?;
            out.push_str(line.as_str())?;
            Ok(())
        }
        None => Ok(()),
    }
}

#[tactic(auto, unfolding(crate::specs::Serving::connection_line))]
fn connection_line(alloc: Global, number: usize, word: &str) -> Result<Text, Memory>
    ensures { IfOk result (λ line. line ≡ spec.connection_line number word.now) }
{
    Ok(Text::new(format!(in alloc; "connection {number} {word}\n")?))
}

/// What is told of a connection that was not closed.
fn end_word(end: ConnEnd) -> Option<&'static str>
    ensures { option_map (λ word. word.now) result ≡ spec.end_word end }
{
    match end {
        ConnEnd::Closed => None,
        ConnEnd::Bad(why, _) => Some(refusal_word(why)),
        ConnEnd::ReadFault => Some("read fault"),
        ConnEnd::WriteFault => Some("write fault"),
        ConnEnd::Memory => Some("memory"),
    }
}

fn refusal_word(why: H) -> &'static str
    ensures { result.now ≡ spec.refusal_word why }
{
    match why {
        H::BadHead => "H1",
        H::BadLength => "H2",
        H::TooLarge => "H3",
        H::Truncated => "H4",
    }
}
