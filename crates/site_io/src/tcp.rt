ghost use Rattle.std.specs.Prelude.{◌≡◌, false, if◌then◌else◌, length, IfOk, ◌≤◌};
ghost use Rattle.std.specs.Io.KnownBytes.{ReadConsumes, WriteAppends};
ghost use Rattle.std.specs.Net.Addr.{IsLoopbackV4};
ghost use Rattle.std.specs.Net.Socket.{v4_ip};
ghost use Rattle.site_io.specs.Stream.{HasShut, next_count};
ghost use Rattle.site_io.specs.Got.{Reads, is_failure as has_failed};
ghost use Rattle.site_io.specs.Took.{Writes, is_failure};
ghost use Rattle.site_io.specs.Adapter.{talk_stream, known_of, is_given_back, ReadsOn, WritesTo};
ghost use Rattle.site_io.specs.Net.{Binds, Accepts, IsOut, HasEnded, untold};

use super::reader_source::read_retrying;
use super::writer_sink::write_retrying;
use super::{Accept, Bound, Connection, Got, Listener, Outside, Sink, Source, Took};
use std::io::{ErrorKind, Read, Write};
use std::marker::Model;
use std::net::{Ipv4Addr, Net, OpenListener, OpenStream, Shutdown, SocketAddr, SocketAddrV4};
use std::time::{Clock, Duration};
use std::{io, thread};

/// How many seconds a peer may send nothing that is read, or take nothing that is written.
const PATIENCE: u64 = 60;

/// How many seconds a peer whose connection was ended may send nothing.
const LAST_PATIENCE: u64 = 1;

/// How many reads take what a peer still sends after the end, and of how many bytes.
const LAST_READS: u32 = 128;

const LAST_CHUNK: usize = 65_536;

/// How often a wait is begun again where descriptors or the kernel's memory were wanting, and the pause before it.
const MOST_WANTS: u32 = 100;

const PAUSE_MILLIS: u64 = 50;

/// A connection over a stream of std, until it is shut. It tells the end of input, once it has met it, and whether it was
/// shut.
///
/// A peer that sends or takes nothing for a minute is a fault of the read or write that waited for it.
#[derive(Drop)]
pub struct TcpConnection<S: Read + Write + OpenStream + Drop> {
    stream: Option<S>,
    faults: u64,
    has_ended: bool,
}

impl<S: Read + Write + OpenStream + Drop> Model for TcpConnection<S> {
    ghost use Rattle.site_io.specs.Adapter.{Talking, talk_stream, known_of, is_given_back};

    ghost Value = { Talking };

    ghost view = { λ c. record {
      stream = talk_stream c.faults c.has_ended (is_given_back c.stream);
      input = known_of (λ s. S.remaining s) c.stream;
      output = known_of (λ s. S.contents s) c.stream;
    } };
}

impl<S: Read + Write + OpenStream + Drop> TcpConnection<S> {
    pub fn new(stream: S) -> Self
        ensures { result ≡ record {
          stream = talk_stream 0 false false;
          input = S.remaining stream;
          output = S.contents stream;
        } }
    {
        let _ = stream.set_read_timeout(Some(Duration::from_secs(PATIENCE)));
        let _ = stream.set_write_timeout(Some(Duration::from_secs(PATIENCE)));
        TcpConnection {
            stream: Some(stream),
            faults: 0,
            has_ended: false,
        }
    }

    /// How many reads and writes have failed; it stands still at the last value of its type.
    pub fn faults(&self) -> u64
        ensures { result ≡ self.now.stream.faults }
    {
        self.faults
    }
}

impl<S: Read + Write + OpenStream + Drop> Outside for TcpConnection<S> {
    ghost stream = { λ c. c.stream };
}

impl<S: Read + Write + OpenStream + Drop> Source for TcpConnection<S> {
    #[tactic(auto, using(crate::proofs::Retries::kept, crate::proofs::Retries::nothing_taken))]
    fn read(&mut self, into: &mut [u8]) -> Got
        ensures reads { Reads result into.new self.old.stream self.new.stream }
        ensures counts { self.new.stream.faults ≡
            (if has_failed result then next_count self.old.stream.faults else self.old.stream.faults) }

        // What it gives was taken from the stream below, and the rest is still there.
        ensures input { ReadsOn self.old.stream.left result into.new self.old.input self.new.input }
    {
        if self.has_ended || into.is_empty() {
            return Got::Bytes(0);
        }
        match read_open(&mut self.stream, into) {
            Ok(count) => {
                self.has_ended = count == 0;
                Got::Bytes(count)
            }
            Err(_) => {
                self.faults = self.faults.saturating_add(1);
                Got::Failed
            }
        }
    }
}

impl<S: Read + Write + OpenStream + Drop> Sink for TcpConnection<S> {
    #[tactic(auto, using(crate::proofs::Retries::kept, crate::proofs::Retries::nothing_given))]
    fn write(&mut self, piece: &[u8]) -> Took
        ensures writes { Writes result piece.now self.old.stream self.new.stream }
        ensures counts { self.new.stream.faults ≡
            (if is_failure result then next_count self.old.stream.faults else self.old.stream.faults) }

        // What counts as taken was given to the stream below, and nothing else was.
        ensures output { WritesTo result piece.now self.old.output self.new.output }
    {
        if piece.is_empty() {
            return Took::Bytes(0);
        }
        match write_open(&mut self.stream, piece) {
            Ok(count) if count > 0 => Took::Bytes(count),
            _ => {
                self.faults = self.faults.saturating_add(1);
                Took::Failed
            }
        }
    }
}

/// Reads where the stream was not given back.
#[tactic(auto, using(crate::proofs::Retries::kept))]
fn read_open<S: Read>(stream: &mut Option<S>, into: &mut [u8]) -> io::Result<usize>
    ensures count { IfOk result (λ count. count ≤ length into.new) }
    ensures input { ReadConsumes (known_of (λ s. S.remaining s) stream.old) (known_of (λ s. S.remaining s) stream.new)
        result into.new }
    ensures held { is_given_back stream.new ≡ is_given_back stream.old }
{
    match stream {
        Some(stream) => read_retrying(stream, into),
        None => Err(io::Error::from(ErrorKind::NotConnected)),
    }
}

/// Writes where the stream was not given back.
#[tactic(auto, using(crate::proofs::Retries::kept))]
fn write_open<S: Write>(stream: &mut Option<S>, piece: &[u8]) -> io::Result<usize>
    ensures count { IfOk result (λ count. count ≤ length piece.now) }
    ensures output { WriteAppends (known_of (λ s. S.contents s) stream.old) (known_of (λ s. S.contents s) stream.new)
        result piece.now }
    ensures held { is_given_back stream.new ≡ is_given_back stream.old }
{
    match stream {
        Some(stream) => write_retrying(stream, piece),
        None => Err(io::Error::from(ErrorKind::NotConnected)),
    }
}

impl<S: Read + Write + OpenStream + Drop> Connection for TcpConnection<S> {
    // That it was shut says that the stream was given back: the descriptor is none of this process any more.
    fn shut(&mut self)
        ensures { HasShut self.old.stream self.new.stream }
    {
        if let Some(mut stream) = self.stream.take() {
            let _ = stream.shutdown(Shutdown::Write);
            take_last(&mut stream);
        }
    }
}

/// Takes what the peer still sends, up to a bound: a stream that is given back with bytes unread loses what was written.
fn take_last<S: Read + OpenStream>(stream: &mut S) {
    let _ = stream.set_read_timeout(Some(Duration::from_secs(LAST_PATIENCE)));
    let mut chunk = [0; LAST_CHUNK];
    for _ in 0..LAST_READS {
        match read_retrying(stream, &mut chunk) {
            Ok(count) if count > 0 => {}
            _ => return,
        }
    }
}

/// Listens at the loopback address. It tells nothing.
#[derive(Drop)]
pub struct TcpPort<'a, R: Net + Clock> {
    system: &'a R,
    listener: Option<R::Listener>,
    faults: u64,
}

impl<'a, R: Net + Clock> Model for TcpPort<'a, R> {
    ghost use Rattle.site_io.specs.Net.{Net, untold};

    ghost Value = { Net };

    ghost view = { λ p. untold p.faults };
}

impl<'a, R: Net + Clock> TcpPort<'a, R> {
    pub fn new(system: &'a R) -> Self
        ensures { result ≡ untold 0 }
    {
        TcpPort {
            system,
            listener: None,
            faults: 0,
        }
    }

    /// How many calls have failed; it stands still at the last value of its type.
    pub fn faults(&self) -> u64
        ensures { result ≡ self.now.faults }
    {
        self.faults
    }

    // What a peer caused is passed over. Where descriptors or the kernel's memory are wanting, connections that end give
    // some back, so it waits for them, but not for ever.
    fn accept(&mut self) -> Option<R::Stream>
        ensures { self.new ≡ self.old }
    {
        let mut wants = 0u32;
        for _ in 0..u64::MAX {
            let error = match self.listener.as_ref()?.accept() {
                Ok((stream, _)) => return Some(stream),
                Err(error) => error,
            };
            match hindered_by(&error) {
                Hindrance::Peer => {}
                Hindrance::Want if wants < MOST_WANTS => {
                    wants += 1;
                    thread::sleep(self.system, Duration::from_millis(PAUSE_MILLIS));
                }
                Hindrance::Want | Hindrance::Fault => return None,
            }
        }
        None
    }
}

/// Why a wait gave no connection.
#[derive(Clone, Copy)]
enum Hindrance {
    /// A peer that gave up, a network that fell away under it, or a signal.
    Peer,
    /// Descriptors, or memory of the kernel.
    Want,
    Fault,
}

/// By the numbers of Linux, most of which have no kind in std.
fn hindered_by(error: &io::Error) -> Hindrance {
    match error.raw_os_error() {
        // EINTR, ENONET, EPROTO, ENOPROTOOPT, EOPNOTSUPP, ENETDOWN, ENETUNREACH, ECONNABORTED, ECONNRESET, ETIMEDOUT,
        // EHOSTDOWN, EHOSTUNREACH
        Some(4 | 64 | 71 | 92 | 95 | 100 | 101 | 103 | 104 | 110 | 112 | 113) => Hindrance::Peer,
        // ENOMEM, ENFILE, EMFILE, ENOBUFS
        Some(12 | 23 | 24 | 105) => Hindrance::Want,
        _ => Hindrance::Fault,
    }
}

impl<'a, R: Net + Clock> Listener for TcpPort<'a, R> {
    type Conn = TcpConnection<R::Stream>;

    ghost net = { λ p. p };

    fn listen(&mut self, port: u16) -> Bound
        ensures { Binds result self.old self.new }
    {
        match bind_near(self.system, SocketAddrV4::new(Ipv4Addr::LOCALHOST, port)) {
            Ok(listener) => {
                self.listener = Some(listener);
                Bound::Listening
            }
            Err(_) => {
                self.faults = self.faults.saturating_add(1);
                Bound::Failed
            }
        }
    }

    fn next_connection(&mut self) -> Accept<TcpConnection<R::Stream>>
        ensures { Accepts (λ c. c.stream) result self.old self.new }
    {
        match self.accept() {
            Some(stream) => Accept::Connection(TcpConnection::new(stream)),
            None => {
                self.faults = self.faults.saturating_add(1);
                Accept::Failed
            }
        }
    }

    fn end_connection(&mut self, _number: u32, connection: TcpConnection<R::Stream>)
        requires { IsOut _number self.old.told }
        ensures { HasEnded _number connection.stream self.old self.new }
    {
        let _faults = self.faults;
        drop(connection);
    }
}

/// Binds at an address that no other machine reaches: who asks is not known by any name or word.
fn bind_near<R: Net>(system: &R, address: SocketAddrV4) -> io::Result<R::Listener>
    requires { IsLoopbackV4 (v4_ip address) }
{
    system.bind(SocketAddr::V4(address))
}
