//! The next request of a source.
ghost use Rattle.std.specs.Prelude.{◌≡◌, ◌+◌, ◌≤◌, length, take, IfOk, Some};
ghost use Rattle.http_wire.specs.Messages.{most_head, most_body};
ghost use Rattle.http_wire.specs.Reading.{ReadsNext, ReadsHead, ReadsBody, Asks, Gathers, ComesTo, IsHeadOf, IsTaken};
ghost use Rattle.http_wire.specs.Places as places;
ghost use Rattle.http_wire.specs.declared.places.Place.TheVariants.{Blank};

use crate::filling::{Filled, fill, fill_to};
use crate::heads::{Head, Look, look_at};
use crate::places::Place;
use crate::request::{H, HttpRequest, MOST_BODY, MOST_HEAD, WireStop};
use pp_values::Memory;
use site_io::{Bytes, Source};
use std::alloc::Global;

/// What reading the bytes of a head came to.
#[derive(Drop)]
pub(crate) enum Gathered {
    /// This one stands at the front.
    Found(Head),
    /// There never will be one.
    Never,
    /// There are as many bytes as a head may have.
    Full,
    /// The input ended.
    Ended,
    Failed,
    Memory,
}

/// The next head, or why there is none.
#[derive(Drop)]
pub(crate) enum NextHead {
    Found(Head),
    /// The input ended, and no byte of a head has come.
    Nothing,
    Stopped(WireStop),
}

/// What the bytes come to, where it is time to ask the parser, which begins anew each time: when a line that
/// ends a head has come, and before that only when there are twice as many bytes as when it was asked last. All
/// in all it goes over three times the bytes of a head, into however many pieces the source cuts them.
fn ask(alloc: Global, bytes: &[u8], place: Place, asked: usize) -> Look
    requires place { place ≡ places.after Blank bytes.now }
    requires short { length bytes.now ≤ most_head }
    ensures { Asks bytes.now result }
{
    if !place.is_ended() && bytes.len() / 2 < asked {
        return Look::Open;
    }
    look_at(alloc, bytes)
}

/// How many bytes there were when the parser was asked last.
fn asked_by(place: Place, count: usize, asked: usize) -> usize {
    if place.is_ended() || count / 2 >= asked {
        count
    } else {
        asked
    }
}

/// Reads until the bytes at hand come to a head or to none, or no more may be read.
fn gather_head<S: Source>(alloc: Global, from: &mut S, rest: &mut Bytes) -> Gathered
    ensures { Gathers rest.old rest.new result (S.stream from.old) (S.stream from.new) }
{
    let mut place = Place::Blank.after(rest.as_slice());
    let mut asked = 0;
    while rest.len() < MOST_HEAD {
        let count = rest.len();
        match ask(alloc, rest.as_slice(), place, asked) {
            Look::Open => asked = asked_by(place, count, asked),
            Look::Whole(head) => return Gathered::Found(head),
            Look::Never => return Gathered::Never,
            Look::NoMemory => return Gathered::Memory,
        }
        match fill(from, rest, MOST_HEAD - count) {
            Filled::Done => place = place.after(&rest.as_slice()[count..]),
            Filled::Ended => return Gathered::Ended,
            Filled::Failed => return Gathered::Failed,
            Filled::Memory => return Gathered::Memory,
        }
    }
    Gathered::Full
}

/// The first bytes, so many at most.
fn front_of(bytes: &[u8], most: usize) -> &[u8]
    ensures front { result.now ≡ take most bytes.now }
    ensures short { length result.now ≤ most }
{
    if bytes.len() > most {
        &bytes[..most]
    } else {
        bytes
    }
}

/// What the bytes at hand come to, where no more are read of a head, for this cause.
fn head_at_last(alloc: Global, rest: &Bytes, cause: WireStop) -> NextHead
    ensures { ComesTo rest.now cause result }
{
    match look_at(alloc, front_of(rest.as_slice(), MOST_HEAD)) {
        Look::Whole(head) => NextHead::Found(head),
        Look::Open => NextHead::Stopped(cause),
        Look::Never => NextHead::Stopped(WireStop::Bad(H::BadHead, 0)),
        Look::NoMemory => NextHead::Stopped(WireStop::Memory),
    }
}

/// The next head, which stays among the bytes at hand.
fn read_head<S: Source>(alloc: Global, from: &mut S, rest: &mut Bytes) -> NextHead
    ensures { ReadsHead rest.old rest.new result (S.stream from.old) (S.stream from.new) }
{
    match gather_head(alloc, from, rest) {
        Gathered::Found(head) => NextHead::Found(head),
        Gathered::Never => NextHead::Stopped(WireStop::Bad(H::BadHead, 0)),
        Gathered::Full => head_at_last(alloc, rest, WireStop::Bad(H::TooLarge, 0)),
        Gathered::Ended => {
            if rest.is_empty() {
                return NextHead::Nothing;
            }
            head_at_last(alloc, rest, WireStop::Bad(H::Truncated, 0))
        }
        Gathered::Failed => head_at_last(alloc, rest, WireStop::ReadFault),
        Gathered::Memory => NextHead::Stopped(WireStop::Memory),
    }
}

/// Takes a request off the front of the bytes at hand.
fn take_request(
    alloc: Global,
    head: Head,
    count: usize,
    bytes: &mut Bytes,
) -> Result<HttpRequest, Memory>
    requires head { head.size ≤ most_head }
    requires body { count ≤ most_body }
    requires within { head.size + count ≤ length bytes.old }
    ensures { IfOk result (λ request. IsTaken head count bytes.old request bytes.new) }
{
    let Head {
        method,
        path,
        seen,
        close,
        size,
        ..
    } = head;
    let end = size + count;
    let all = bytes.as_slice();
    let body = Bytes::from_slice(alloc, &all[size..end])?;
    let rest = Bytes::from_slice(alloc, &all[end..])?;
    *bytes = rest;
    Ok(HttpRequest {
        method,
        path,
        seen,
        close,
        body,
        size: end as u32,
    })
}

/// Reads the body, of so many bytes, behind a head, and takes both.
fn read_body<S: Source>(
    alloc: Global,
    from: &mut S,
    rest: &mut Bytes,
    head: Head,
    count: usize,
) -> Result<Option<HttpRequest>, WireStop>
    requires head { IsHeadOf rest.old head }
    requires announced { head.body ≡ Some count }
    requires fits { count ≤ most_body }
    ensures { ReadsBody rest.old rest.new result (S.stream from.old) (S.stream from.new) }
{
    match fill_to(from, rest, head.size + count) {
        Filled::Done => {}
        Filled::Ended => return Err(WireStop::Bad(H::Truncated, 0)),
        Filled::Failed => return Err(WireStop::ReadFault),
        Filled::Memory => return Err(WireStop::Memory),
    }
    match take_request(alloc, head, count, rest) {
        Ok(request) => Ok(Some(request)),
        Err(Memory) => Err(WireStop::Memory),
    }
}

/// Reads what stands behind a head that is whole.
fn read_behind<S: Source>(
    alloc: Global,
    from: &mut S,
    rest: &mut Bytes,
    head: Head,
) -> Result<Option<HttpRequest>, WireStop>
    requires { IsHeadOf rest.old head }
    ensures { ReadsBody rest.old rest.new result (S.stream from.old) (S.stream from.new) }
{
    match head.body {
        None => Err(WireStop::Bad(H::BadLength, 0)),
        Some(count) => {
            let count = count as usize;
            if count > MOST_BODY {
                return Err(WireStop::Bad(H::TooLarge, 0));
            }
            read_body(alloc, from, rest, head, count)
        }
    }
}

/// Reads the next request, into however many pieces the source cuts it. `rest` has the bytes that were read past
/// the request before, and has those past this one afterwards; where no request is answered, it has all bytes
/// that were met, unless memory was wanting.
///
/// A request is answered once its last byte was read. A head that will never be one is told by the time that the
/// bytes at hand are twice as many, that a read fails or that the input ends.
pub fn read_request<S: Source>(
    alloc: Global,
    from: &mut S,
    rest: &mut Bytes,
) -> Result<Option<HttpRequest>, WireStop>
    ensures { ReadsNext rest.old rest.new result (S.stream from.old) (S.stream from.new) }
{
    match read_head(alloc, from, rest) {
        NextHead::Found(head) => read_behind(alloc, from, rest, head),
        NextHead::Nothing => Ok(None),
        NextHead::Stopped(stop) => Err(stop),
    }
}
