//! Reads that add to the bytes at hand.
ghost use Rattle.std.specs.Prelude.{◌<◌};
ghost use Rattle.http_wire.specs.Reading.{Fills, FillsTo};

use site_io::{Bytes, Got, Source};

/// The most bytes that one read asks for.
const CHUNK: usize = 8192;

/// What reading came to.
#[derive(Clone, Copy, Debug, PartialEq, Eq)]
pub(crate) enum Filled {
    /// What was asked for is there.
    Done,
    /// The input ended.
    Ended,
    Failed,
    Memory,
}

/// Reads once: a byte or more, and not more than so many. Where memory is wanting, what was read is lost.
pub(crate) fn fill<S: Source>(from: &mut S, bytes: &mut Bytes, most: usize) -> Filled
    requires { 0 < most }
    ensures { Fills bytes.old bytes.new result (S.stream from.old) (S.stream from.new) }
{
    let mut chunk = [0; CHUNK];
    let into = &mut chunk[..most.min(CHUNK)];
    match from.read(into) {
        Got::Bytes(0) => Filled::Ended,
        Got::Bytes(count) => match bytes.extend_from_slice(&into[..count]) {
            Ok(()) => Filled::Done,
            Err(_refused) => Filled::Memory,
        },
        Got::Failed => Filled::Failed,
    }
}

/// Reads until so many bytes are at hand, and none past them.
pub(crate) fn fill_to<S: Source>(from: &mut S, bytes: &mut Bytes, size: usize) -> Filled
    ensures { FillsTo size bytes.old bytes.new result (S.stream from.old) (S.stream from.new) }
{
    while bytes.len() < size {
        let missing = size - bytes.len();
        match fill(from, bytes, missing) {
            Filled::Done => {}
            Filled::Ended => return Filled::Ended,
            Filled::Failed => return Filled::Failed,
            Filled::Memory => return Filled::Memory,
        }
    }
    Filled::Done
}
