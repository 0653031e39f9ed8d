ghost use Rattle.std.specs.Prelude.{◌≡◌, ◌-◌, ◌++◌, [], false, length, take, min, IfOk};
ghost use Rattle.site_io.specs.Stream.{HasShut};
ghost use Rattle.site_io.specs.Got.{Reads};
ghost use Rattle.site_io.specs.Took.{Writes};
ghost use Rattle.site_io.specs.Sure.{line_stream};

use super::bytes::copy_next;
use super::{Bytes, Connection, Got, Outside, Sink, Source, Took};
use std::alloc::{AllocError, Global};
use std::marker::Model;

/// A connection of given bytes that never fails. As a [`SureSink`](super::SureSink) does, it keeps as many of the bytes
/// that are written to it as it was made with room for, and tells nothing of them as a stream.
#[derive(Debug, Drop)]
pub struct SureConn {
    bytes: Bytes,
    at: usize,
    kept: Vec<u8>,
    room: usize,
    is_shut: bool,
}

impl Model for SureConn {
    ghost use Rattle.std.specs.Prelude.{◌+◌, ◌≤◌, length, take, drop, vec_len, vec_capacity};
    ghost use Rattle.site_io.specs.Sure.{Line};

    ghost Value = { Line };

    ghost view = { λ c. record {
      input = record { read = take c.at c.bytes; left = drop c.at c.bytes };
      kept = record { bytes = c.kept.items; room = c.room };
      shut = c.is_shut;
    } };

    ghost invariant = { λ c. (c.at ≤ length c.bytes) × (vec_len c.kept + c.room ≤ vec_capacity c.kept) };
}

impl SureConn {
    /// A connection that gives these bytes, and keeps the first `room` bytes that are written to it.
    pub fn new(alloc: Global, bytes: Bytes, room: usize) -> Result<Self, AllocError>
        ensures { IfOk result (λ c. c ≡ record {
          input = record { read = []; left = bytes };
          kept = record { bytes = []; room = room };
          shut = false;
        }) }
    {
        Ok(SureConn {
            bytes,
            at: 0,
            kept: Vec::with_capacity(alloc, room)?,
            room,
            is_shut: false,
        })
    }

    /// The bytes that were kept.
    pub fn kept(&self) -> &[u8]
        ensures { result.now ≡ self.now.kept.bytes }
    {
        self.kept.as_slice()
    }

    pub fn is_shut(&self) -> bool
        ensures { result ≡ self.now.shut }
    {
        self.is_shut
    }
}

impl Outside for SureConn {
    ghost stream = { line_stream };
}

impl Source for SureConn {
    fn read(&mut self, into: &mut [u8]) -> Got
        ensures reads { Reads result into.new (line_stream self.old) (line_stream self.new) }
        ensures fills { result ≡ Got.Bytes (min (length into.old) (length self.old.input.left)) }
        ensures kept { self.new.kept ≡ self.old.kept }
    {
        let start = self.at;
        self.at = copy_next(self.bytes.as_slice(), start, into);
        Got::Bytes(self.at - start)
    }
}

impl Sink for SureConn {
    fn write(&mut self, piece: &[u8]) -> Took
        ensures writes { Writes result piece.now (line_stream self.old) (line_stream self.new) }
        ensures takes { result ≡ Took.Bytes (length piece.now) }
        ensures input { self.new.input ≡ self.old.input }
        ensures keeps { self.new.kept.bytes ≡ self.old.kept.bytes ++ take self.old.kept.room piece.now }
        ensures room { self.new.kept.room ≡ self.old.kept.room - length piece.now }
    {
        let count = piece.len().min(self.room);
        self.kept.extend_from_slice(&piece[..count]).unwrap();
        self.room -= count;
        Took::Bytes(piece.len())
    }
}

impl Connection for SureConn {
    fn shut(&mut self)
        ensures shut { HasShut (line_stream self.old) (line_stream self.new) }
        ensures input { self.new.input ≡ self.old.input }
        ensures kept { self.new.kept ≡ self.old.kept }
    {
        self.is_shut = true;
    }
}
