//! What bytes say of a head.
ghost use Rattle.std.specs.Prelude.{◌≡◌, ◌+◌, ◌*◌, ◌<◌, ◌≤◌, length, map, IfOk, true, false};
ghost use Rattle.httparse.specs.Borrowed.{HoldsSomeRequest, header_parts};
ghost use Rattle.httparse.specs.Grammar.{NeverHasRequest};
ghost use Rattle.http_wire.specs.Messages.{most_head};
ghost use Rattle.http_wire.specs.Places as places;
ghost use Rattle.http_wire.specs.Reading.{IsKept, Looks, LooksWithin};
ghost use Rattle.http_wire.specs.declared.places.Place.TheVariants.{Blank};

use crate::fields::{body_length, closes, seen};
use crate::places::Place;
use crate::request::{MOST_FIELDS, MOST_HEAD};
use http::Method;
use httparse::{EMPTY_HEADER, Error, Header, Request, Status};
use pp_values::{Memory, Text};
use std::alloc::Global;

/// Room for more fields than stand in any head that is read: each has a name, a colon and the end of its line.
const WIDE_ROOM: usize = MOST_HEAD / 3 + 1;

/// What is kept of a head.
#[derive(Drop)]
pub(crate) struct Head {
    pub(crate) method: Method,
    pub(crate) path: Text,
    pub(crate) seen: Option<Text>,
    pub(crate) close: bool,
    /// How many bytes the body has; none where the fields are faulty.
    pub(crate) body: Option<u32>,
    /// How many bytes the head has.
    pub(crate) size: usize,
}

/// What bytes come to, as a head.
#[derive(Drop)]
pub(crate) enum Look {
    /// They begin with this one.
    Whole(Head),
    /// They may become one.
    Open,
    /// They never will, or have too many fields.
    Never,
    NoMemory,
}

/// What is kept of a head with these parts.
fn kept(
    alloc: Global,
    method: &str,
    path: &str,
    version: u8,
    fields: &[Header<'_>],
    size: usize,
) -> Result<Head, Memory>
    ensures { IfOk result (IsKept method.now path.now version (map header_parts fields.now) size) }
{
    let Ok(method) = Method::from_bytes(alloc, method.as_bytes()) else {
        return Err(Memory);
    };
    let path = Text::from_str(alloc, path)?;
    let seen = seen(alloc, fields)?;
    Ok(Head {
        method,
        path,
        seen,
        close: closes(version, fields),
        body: body_length(fields),
        size,
    })
}

/// What a head that the parser found comes to.
fn look_at_head(alloc: Global, bytes: &[u8], request: &Request<'_, '_>, size: usize) -> Look
    requires found { HoldsSomeRequest bytes.now request.now size }
    requires short { length bytes.now ≤ most_head }
    ensures { Looks bytes.now result }
{
    if request.headers.len() > MOST_FIELDS {
        return Look::Never;
    }
    match (request.method, request.path, request.version) {
        (Some(method), Some(path), Some(version)) => {
            match kept(alloc, method, path, version, request.headers, size) {
                Ok(head) => Look::Whole(head),
                Err(Memory) => Look::NoMemory,
            }
        }
        _ => unreachable!(),
    }
}

/// What the parser does not tell: bytes that end within a target are open, whatever stands in it.
fn unfinished(bytes: &[u8]) -> Look
    requires { NeverHasRequest bytes.now }
    ensures { Looks bytes.now result }
{
    if Place::Blank.after(bytes).is_target() {
        Look::Open
    } else {
        Look::Never
    }
}

/// What the bytes come to, with room for so many fields. Where there are more it is not told.
fn look_within<'b>(alloc: Global, bytes: &'b [u8], room: &mut [Header<'b>]) -> Option<Look>
    requires { length bytes.now ≤ most_head }
    ensures { LooksWithin (length room.old) bytes.now result }
{
    let mut request = Request::new(room);
    match request.parse(bytes) {
        Ok(Status::Complete(size)) => Some(look_at_head(alloc, bytes, &request, size)),
        Ok(Status::Partial) => Some(Look::Open),
        Err(Error::TooManyHeaders) => None,
        Err(_invalid) => Some(unfinished(bytes)),
    }
}

/// The same for bytes that have more fields than are taken, which may be no head all the same.
fn look_widely(alloc: Global, bytes: &[u8]) -> Look
    requires { length bytes.now ≤ most_head }
    ensures { Looks bytes.now result }
{
    let Ok(mut room) = vec![in alloc; EMPTY_HEADER; WIDE_ROOM] else {
        return Look::NoMemory;
    };
    match look_within(alloc, bytes, &mut room) {
        Some(look) => look,
        None => unreachable!(),
    }
}

/// What the bytes come to, as a head.
pub(crate) fn look_at(alloc: Global, bytes: &[u8]) -> Look
    requires { length bytes.now ≤ most_head }
    ensures { Looks bytes.now result }
{
    let mut room = [EMPTY_HEADER; MOST_FIELDS];
    match look_within(alloc, bytes, &mut room) {
        Some(look) => look,
        None => look_widely(alloc, bytes),
    }
}
