//! The lines behind what stands at a place.

ghost use Rattle.std.specs.Prelude.{◌≡◌, ◌+◌, ◌-◌, ◌^◌, ◌<◌, ◌≤◌, length, slice_index};
ghost use Rattle.pp_lexer.specs.Bytes as spec;
ghost use Rattle.pp_lexer.specs.Fronts.{HasLines};
ghost use Rattle.pp_lexer.specs.declared.front.Found.TheVariants.{Blank};

use crate::bytes::line_at;
use crate::front::Found;

/// The line behind a byte.
fn line_after(line: u32, b: u8) -> u32
    requires { line + 1 < 2 ^ 32 }
    ensures value { result ≡ spec.line_after line b }
    ensures within { result ≤ line + 1 }
{
    if b == b'\n' { line + 1 } else { line }
}

/// The line behind bytes of which there is mostly one.
#[tactic(auto, using(crate::proofs::LineLemmas::line_of_one))]
fn line_behind_few(line: u32, bytes: &[u8]) -> u32
    requires { line + length bytes.now < 2 ^ 32 }
    ensures value { result ≡ spec.line_at line bytes.now }
    ensures within { result ≤ line + length bytes.now }
{
    if bytes.len() == 1 {
        line_after(line, bytes[0])
    } else {
        line_at(line, bytes)
    }
}

/// The line behind white space or a comment.
fn line_behind_blank(line: u32, spelling: &str) -> u32
    requires some { 0 < length spelling.now }
    requires fits { line + length spelling.now < 2 ^ 32 }
    requires lines { HasLines spelling.now Blank }
    ensures value { result ≡ spec.line_at line spelling.now }
    ensures within { result ≤ line + length spelling.now }
{
    let bytes = spelling.as_bytes();
    if bytes[0] == b'#' {
        line_after(line, bytes[bytes.len() - 1])
    } else {
        line_behind_few(line, bytes)
    }
}

/// The line behind what stands at a place, from its spelling.
pub fn line_behind(line: u32, found: Found, spelling: &str) -> u32
    requires some { 0 < length spelling.now }
    requires fits { line + length spelling.now < 2 ^ 32 }
    requires lines { HasLines spelling.now found }
    ensures value { result ≡ spec.line_at line spelling.now }
    ensures within { result ≤ line + length spelling.now }
{
    match found {
        Found::Word(_) | Found::Dollar(_) | Found::Number(_) => line,
        Found::Blank => line_behind_blank(line, spelling),
        _ => line_behind_few(line, spelling.as_bytes()),
    }
}
