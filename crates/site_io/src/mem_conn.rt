ghost use Rattle.std.specs.Prelude.{◌≡◌, ◌-◌, min, length, IfOk, IfSome, Some, true};
ghost use Rattle.site_io.specs.Stream.{HasShut};
ghost use Rattle.site_io.specs.Got.{Reads, is_failure as has_failed, IfBytes as IfGot};
ghost use Rattle.site_io.specs.Took.{Writes, IfBytes, is_failure, taken_count};
ghost use Rattle.site_io.specs.Scripted.{new_conn, is_failing_next, is_refused, IsNextCall, IsNoCall};

use super::bytes::copy_next;
use super::{Bytes, Connection, Got, Outside, Sink, Source, Took};
use std::alloc::{AllocError, Global};
use std::marker::Model;

/// A connection in memory: given bytes are read from it, and it keeps what is written to it. Its calls, reads and
/// writes alike, fail where they are told to, and its writes where its room is used up.
#[derive(Debug, Drop)]
pub struct MemConn {
    bytes: Bytes,
    at: usize,
    written: Vec<u8>,
    room: usize,
    is_shut: bool,
    calls: u64,
    failing: Vec<u64>,
    faults: u64,
}

impl Model for MemConn {
    ghost use Rattle.std.specs.Prelude.{◌+◌, ◌≤◌, length, take, drop, vec_len, vec_capacity};
    ghost use Rattle.site_io.specs.Scripted.{ScriptedSink, conn_stream};

    ghost Value = { ScriptedSink };

    ghost view = { λ c. record {
      scripted = record {
        stream = conn_stream c.faults (take c.at c.bytes) (drop c.at c.bytes) c.written.items c.is_shut;
        calls = c.calls;
        failing = c.failing.items;
      };
      room = c.room;
    } };

    ghost invariant = { λ c. (c.at ≤ length c.bytes) × (vec_len c.written + c.room ≤ vec_capacity c.written) };
}

impl MemConn {
    /// Copies the bytes that are to be read, and the numbers of the calls that are to fail, which count from 1.
    pub fn new(
        alloc: Global,
        bytes: &[u8],
        room: usize,
        failing: &[u64],
    ) -> Result<Self, AllocError>
        ensures { IfOk result (λ c. c ≡ new_conn bytes.now room failing.now) }
    {
        Ok(MemConn {
            bytes: Bytes::from_slice(alloc, bytes)?,
            at: 0,
            written: Vec::with_capacity(alloc, room)?,
            room,
            is_shut: false,
            calls: 0,
            failing: Vec::from_slice(alloc, failing)?,
            faults: 0,
        })
    }

    /// The bytes that are still to be read.
    pub fn left(&self) -> &[u8]
        ensures { self.now.scripted.stream.left ≡ Some result.now }
    {
        &self.bytes.as_slice()[self.at..]
    }

    /// The bytes that were written.
    pub fn written(&self) -> &[u8]
        ensures { self.now.scripted.stream.written ≡ Some result.now }
    {
        self.written.as_slice()
    }

    /// Whether it was shut.
    pub fn is_shut(&self) -> bool
        ensures { self.now.scripted.stream.shut ≡ Some result }
    {
        self.is_shut
    }

    /// How many reads and writes it has met.
    pub fn calls(&self) -> u64
        ensures { result ≡ self.now.scripted.calls }
    {
        self.calls
    }

    /// How many of them have failed.
    pub fn faults(&self) -> u64
        ensures { result ≡ self.now.scripted.stream.faults }
    {
        self.faults
    }

    fn is_failing_next(&self) -> bool
        ensures { result ≡ is_failing_next self.now.scripted }
    {
        self.failing.contains(&self.calls.saturating_add(1))
    }

    fn is_refused(&self, piece: &[u8]) -> bool
        ensures { result ≡ is_refused self.now (length piece.now) }
    {
        self.is_failing_next() || (self.room == 0 && piece.len() != 0)
    }
}

impl Outside for MemConn {
    ghost stream = { λ c. c.scripted.stream };
}

impl Source for MemConn {
    fn read(&mut self, into: &mut [u8]) -> Got
        ensures reads { Reads result into.new self.old.scripted.stream self.new.scripted.stream }
        ensures next { IsNextCall (has_failed result) self.old.scripted self.new.scripted }

        // It fails where it was told to, and else fills the buffer as far as the bytes go.
        ensures fails { has_failed result ≡ is_failing_next self.old.scripted }
        ensures room { self.new.room ≡ self.old.room }
        ensures fills { IfSome self.old.scripted.stream.left (λ left.
            IfGot result (λ count. count ≡ min (length into.old) (length left))) }
    {
        let is_failing = self.is_failing_next();
        self.calls = self.calls.saturating_add(1);
        if is_failing {
            self.faults = self.faults.saturating_add(1);
            return Got::Failed;
        }
        let start = self.at;
        self.at = copy_next(self.bytes.as_slice(), start, into);
        Got::Bytes(self.at - start)
    }
}

impl Sink for MemConn {
    fn write(&mut self, piece: &[u8]) -> Took
        ensures writes { Writes result piece.now self.old.scripted.stream self.new.scripted.stream }
        ensures next { IsNextCall (is_failure result) self.old.scripted self.new.scripted }

        // It fails where it was told to or has no room, and else takes what fits.
        ensures fails { is_failure result ≡ is_refused self.old (length piece.now) }
        ensures takes { IfBytes result (λ count. count ≡ min (length piece.now) self.old.room) }
        ensures room { self.new.room ≡ self.old.room - taken_count result }
    {
        let is_refused = self.is_refused(piece);
        self.calls = self.calls.saturating_add(1);
        if is_refused {
            self.faults = self.faults.saturating_add(1);
            return Took::Failed;
        }
        let count = piece.len().min(self.room);
        self.written.extend_from_slice(&piece[..count]).unwrap();
        self.room -= count;
        Took::Bytes(count)
    }
}

impl Connection for MemConn {
    fn shut(&mut self)
        ensures shut { HasShut self.old.scripted.stream self.new.scripted.stream }
        // It counts as no call, and none fails.
        ensures quiet { IsNoCall self.old.scripted self.new.scripted }
        ensures room { self.new.room ≡ self.old.room }
    {
        self.is_shut = true;
    }
}
