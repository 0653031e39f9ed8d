ghost use Rattle.std.specs.Prelude.{◌≡◌, ◌≤◌, Err, true, length};
ghost use Rattle.site_io.specs.declared.transfer.ReadStop.TheVariants.{Fault};

use site_io::{
    Bytes, Got, MemSink, MemSource, ReadStop, ReaderSource, Sink, Source, SureSink, SureSource,
    Took, WriteFault, WriterSink, read_all, write_all,
};
use std::alloc::{AllocError, Global};
use std::io;
use std::io::{ErrorKind, Read, Write};
use std::test::Fail;

const ABCDE: &[u8] = b"abcde";

/// The most bytes that one read of these tests asks for.
const ROOM: usize = 4;

/// Whether a read into so much room gives this, with these bytes.
fn gives<S: Source>(source: &mut S, room: usize, want: Got, bytes: &[u8]) -> bool {
    let mut into = [0; ROOM];
    let got = source.read(&mut into[..room.min(ROOM)]);
    got == want && into.starts_with(bytes)
}

/// Reads of `abcde`, of which the second fails: the room, what is given, the bytes.
const MEM_READS: [(usize, Got, &[u8]); 5] = [
    (3, Got::Bytes(3), b"abc"),
    (3, Got::Failed, b""),
    (0, Got::Bytes(0), b""),
    (3, Got::Bytes(2), b"de"),
    (3, Got::Bytes(0), b""),
];

#[test]
fn reads_around_a_fault(rt: HostRuntime) -> Result<(), Fail> {
    let mut source = MemSource::new(rt.alloc(), ABCDE, &[2])?;
    for (room, want, bytes) in MEM_READS {
        assert!(rt; gives(&mut source, room, want, bytes), "{room} bytes");
    }
    assert!(rt; source.left().is_empty());
    assert!(rt; source.calls() == 5 && source.faults() == 1);
    Ok(())
}

/// Writes into room for four bytes, of which the second fails and the fourth finds no room.
const MEM_WRITES: [(&[u8], Took); 5] = [
    (b"ab", Took::Bytes(2)),
    (b"cd", Took::Failed),
    (b"cde", Took::Bytes(2)),
    (b"e", Took::Failed),
    (b"", Took::Bytes(0)),
];

#[test]
fn writes_around_a_fault(rt: HostRuntime) -> Result<(), Fail> {
    let mut sink = MemSink::new(rt.alloc(), 4, &[2])?;
    for (piece, want) in MEM_WRITES {
        assert!(rt; sink.write(piece) == want);
    }
    assert!(rt; sink.calls() == 5 && sink.faults() == 2);
    assert!(rt; sink.written() == b"abcd".as_slice());
    assert!(rt; sink.into_written().as_slice() == b"abcd".as_slice());
    Ok(())
}

/// What `read_all` makes of five bytes: the limit, the number of the call that fails, how many bytes come or why
/// none do. The first call gives all five bytes, the second meets the end.
const LIMITS: [(usize, u64, Result<usize, ReadStop>); 7] = [
    (5, 9, Ok(5)),
    (6, 9, Ok(5)),
    (4, 9, Err(ReadStop::TooLong)),
    (0, 9, Err(ReadStop::TooLong)),
    (5, 1, Err(ReadStop::Fault)),
    (5, 2, Err(ReadStop::Fault)),
    (4, 2, Err(ReadStop::TooLong)),
];

/// Whether `read_all` gives so many bytes, or stops for that reason and no other.
fn comes_to<S: Source>(
    alloc: Global,
    source: &mut S,
    limit: usize,
    want: Result<usize, ReadStop>,
) -> bool {
    read_all(alloc, source, limit).map(|bytes| bytes.len()) == want
}

#[test]
fn reads_within_the_limit(rt: HostRuntime) -> Result<(), Fail> {
    for (limit, failing, want) in LIMITS {
        let mut source = MemSource::new(rt.alloc(), ABCDE, &[failing])?;
        let is_right = comes_to(rt.alloc(), &mut source, limit, want);
        assert!(rt; is_right, "limit {limit}, call {failing} fails");
    }
    Ok(())
}

/// A source that never fails is the cause of no fault.
fn read_surely(alloc: Global, source: &mut SureSource, limit: usize) -> Result<Bytes, ReadStop>
    ensures { result ≡ Err Fault → ⊥ }
{
    read_all(alloc, source, limit)
}

/// A sink that never fails is the cause of no fault.
fn write_surely(sink: &mut SureSink, bytes: &[u8]) -> bool
    ensures { result ≡ true }
{
    write_all(sink, bytes).is_ok()
}

/// Whether so many bytes are read in many pieces, and written to a sink that keeps three of them.
fn moves_many(alloc: Global, long: &[u8]) -> Result<bool, ReadStop> {
    let mut source = SureSource::new(Bytes::from_slice(alloc, long)?);
    let are_left = source.left().len() == long.len();
    let bytes = read_surely(alloc, &mut source, long.len())?;
    let mut sink = SureSink::new(alloc, 3)?;
    let is_written = write_surely(&mut sink, bytes.as_slice());
    let are_kept = sink.kept() == [7, 7, 7].as_slice() && sink.into_kept().len() == 3;
    let are_read = bytes.as_slice() == long && source.left().is_empty();
    Ok(are_left && is_written && are_kept && are_read)
}

#[test]
fn reads_and_writes_many_pieces(rt: HostRuntime) -> Result<(), Fail> {
    let long = vec![in rt.alloc(); 7u8; 20000]?;
    assert!(rt; moves_many(rt.alloc(), &long)?);
    Ok(())
}

/// A reader that gives `ab`, is interrupted, fails, gives `c`, ends, and after that would give more.
#[derive(Drop)]
struct FlakyReader {
    calls: u8,
}

/// Copies the bytes to the front of the buffer, where they fit.
fn give(bytes: &[u8], into: &mut [u8]) -> usize
    ensures { result ≤ length into.old }
{
    let count = bytes.len().min(into.len());
    into[..count].copy_from_slice(&bytes[..count]);
    count
}

impl Read for FlakyReader {
    fn read(&mut self, into: &mut [u8]) -> io::Result<usize> {
        self.calls = self.calls.saturating_add(1);
        match self.calls {
            2 => Err(io::Error::from(ErrorKind::Interrupted)),
            3 => Err(io::Error::from(ErrorKind::BrokenPipe)),
            1 => Ok(give(b"ab", into)),
            5 => Ok(0),
            _ => Ok(give(b"c", into)),
        }
    }
}

/// What an adapter makes of that reader. It asks no more once it has met the end.
const FLAKY_READS: [(usize, Got, &[u8]); 6] = [
    (0, Got::Bytes(0), b""),
    (4, Got::Bytes(2), b"ab"),
    (4, Got::Failed, b""),
    (4, Got::Bytes(1), b"c"),
    (4, Got::Bytes(0), b""),
    (4, Got::Bytes(0), b""),
];

#[test]
fn adapts_a_reader(rt: HostRuntime) {
    let mut source = ReaderSource::new(FlakyReader { calls: 0 });
    for (room, want, bytes) in FLAKY_READS {
        assert!(rt; gives(&mut source, room, want, bytes));
    }
    assert!(rt; source.faults() == 1);
}

/// A writer that takes two bytes a call, is interrupted at its second call, takes none at its fourth, and
/// fails at its sixth.
#[derive(Drop)]
struct FlakyWriter {
    calls: u8,
}

impl Write for FlakyWriter {
    fn write(&mut self, piece: &[u8]) -> io::Result<usize> {
        self.calls = self.calls.saturating_add(1);
        match self.calls {
            2 => Err(io::Error::from(ErrorKind::Interrupted)),
            4 => Ok(0),
            6 => Err(io::Error::from(ErrorKind::BrokenPipe)),
            _ => Ok(piece.len().min(2)),
        }
    }

    fn flush(&mut self) -> io::Result<()> {
        Ok(())
    }
}

/// Texts for that writer, whether an adapter writes all of each, and how many writes have failed by then.
const FLAKY_WRITES: [(&[u8], bool, u64); 5] = [
    (b"", true, 0),
    (b"abc", true, 0),
    (b"abc", false, 1),
    (b"abcd", false, 2),
    (b"abcd", true, 2),
];

#[test]
fn adapts_a_writer(rt: HostRuntime) {
    let mut sink = WriterSink::new(FlakyWriter { calls: 0 });
    for (bytes, is_whole, faults) in FLAKY_WRITES {
        assert!(rt; write_all(&mut sink, bytes).is_ok() == is_whole);
        assert!(rt; sink.faults() == faults);
    }
}

const CAUSES: [(ReadStop, &str); 3] = [
    (ReadStop::Fault, "a read failed"),
    (ReadStop::TooLong, "the input is too long"),
    (ReadStop::Memory, "out of memory"),
];

fn is_shown(alloc: Global, stop: ReadStop, want: &str) -> Result<bool, AllocError> {
    Ok(format!(in alloc; "{stop}")?.as_str() == want)
}

fn fault_is_shown(alloc: Global) -> Result<bool, AllocError> {
    Ok(format!(in alloc; "{WriteFault}")?.as_str() == "a write failed")
}

#[test]
fn prints_causes(rt: HostRuntime) -> Result<(), Fail> {
    for (stop, want) in CAUSES {
        assert!(rt; is_shown(rt.alloc(), stop, want)?, "{want}");
    }
    assert!(rt; fault_is_shown(rt.alloc())?);
    Ok(())
}
