ghost use Rattle.std.specs.Prelude.{◌≡◌, ◌++◌, IfOk, OnOk, string_bytes};
ghost use Rattle.http_wire.specs.Responses.{status_line, length_field, number_field, head_text, response_text, WritesText};

use http::StatusCode;
use pp_values::Memory;
use site_io::{Bytes, Sink, write_all};
use std::alloc::Global;
use std::error::Error;
use std::fmt;

/// An answer to a request.
#[derive(Drop)]
pub struct HttpResponse {
    pub status: StatusCode,
    /// The field `Site-Entry`.
    pub entry: Option<u32>,
    /// The field `Site-K`.
    pub k: Option<u32>,
    pub body: Bytes,
}

/// Why a response was not written whole.
#[derive(Clone, Copy, Debug, PartialEq, Eq)]
pub enum WriteStop {
    WriteFault,
    Memory,
}

impl fmt::Display for WriteStop {
    fn fmt<W: fmt::Write>(&self, f: &mut fmt::Formatter<W>) -> fmt::Result {
        f.write_str(match self {
            WriteStop::WriteFault => "a write failed",
            WriteStop::Memory => "out of memory",
        })
    }
}

impl Error for WriteStop {}

/// Adds the line with the status and its phrase.
fn push_status(out: &mut String, status: StatusCode) -> Result<(), Memory>
    ensures { OnOk result (string_bytes out.new ≡ string_bytes out.old ++ status_line status) }
{
    out.push_str("HTTP/1.1 ")?;
    write!(out, "{status}")?;
    out.push_str("\r\n")?;
    Ok(())
}

/// Adds the field that tells how many bytes the body has.
fn push_length(out: &mut String, length: usize) -> Result<(), Memory>
    ensures { OnOk result (string_bytes out.new ≡ string_bytes out.old ++ length_field length) }
{
    write!(out, "Content-Length: {length}\r\n")?;
    Ok(())
}

/// Adds the field of this name, where there is a number for it.
fn push_number(out: &mut String, name: &str, number: Option<u32>) -> Result<(), Memory>
    ensures { OnOk result (string_bytes out.new ≡ string_bytes out.old ++ number_field name.now number) }
{
    match number {
        None => Ok(()),
        Some(number) => {
            out.push_str(name)?;
            write!(out, ": {number}\r\n")?;
            Ok(())
        }
    }
}

/// What stands before the body.
fn head_of(alloc: Global, response: &HttpResponse) -> Result<String, Memory>
    ensures { IfOk result (λ head. string_bytes head ≡ head_text response.now) }
{
    let mut out = String::new(alloc);
    push_status(&mut out, response.status)?;
    push_length(&mut out, response.body.len())?;
    push_number(&mut out, "Site-Entry", response.entry)?;
    push_number(&mut out, "Site-K", response.k)?;
    out.push_str("\r\n")?;
    Ok(out)
}

/// The bytes of a response.
fn text_of(alloc: Global, response: &HttpResponse) -> Result<Vec<u8>, Memory>
    ensures { IfOk result (λ text. text.items ≡ response_text response.now) }
{
    let mut text = head_of(alloc, response)?.into_bytes();
    text.extend_from_slice(response.body.as_slice())?;
    Ok(text)
}

/// Writes a response. Its head and body are handed over as one piece, since a small piece behind another may wait
/// for the peer.
pub fn write_response<K: Sink>(
    alloc: Global,
    to: &mut K,
    response: &HttpResponse,
) -> Result<(), WriteStop>
    ensures { WritesText (response_text response.now) result (K.stream to.old) (K.stream to.new) }
{
    let Ok(text) = text_of(alloc, response) else {
        return Err(WriteStop::Memory);
    };
    match write_all(to, text.as_slice()) {
        Ok(()) => Ok(()),
        Err(_fault) => Err(WriteStop::WriteFault),
    }
}
