ghost use Rattle.std.specs.Prelude.{◌≡◌};

use http::Method;
use pp_values::Text;
use site_io::Bytes;
use std::error::Error;
use std::fmt;

/// The most bytes of a head, with the empty lines before it.
pub const MOST_HEAD: usize = 16384;

/// The most fields of a head.
pub const MOST_FIELDS: usize = 64;

/// The most bytes of a body.
pub const MOST_BODY: usize = 8388608;

/// A request, as far as an answer depends on it.
#[derive(Drop)]
pub struct HttpRequest {
    pub method: Method,
    /// The target as it was sent, with what stands behind `?`.
    pub path: Text,
    /// The value of the first field `Site-Seen`, with `?` for each byte past ASCII.
    pub seen: Option<Text>,
    /// The connection closes after the answer.
    pub close: bool,
    pub body: Bytes,
    /// How many bytes the message had, with empty lines before it.
    pub size: u32,
}

/// Why bytes are no request.
#[derive(Clone, Copy, Debug, PartialEq, Eq)]
pub enum H {
    /// H1: they begin no head, or a head with too many fields.
    BadHead,
    /// H2: what the head says of the length of its body is faulty, or not taken.
    BadLength,
    /// H3: head or body is too large.
    TooLarge,
    /// H4: the input ended within a message.
    Truncated,
}

impl fmt::Display for H {
    fn fmt<W: fmt::Write>(&self, f: &mut fmt::Formatter<W>) -> fmt::Result {
        f.write_str(match self {
            H::BadHead => "H1",
            H::BadLength => "H2",
            H::TooLarge => "H3",
            H::Truncated => "H4",
        })
    }
}

/// Why no request was read. `Bad` has the place of the faulty message's first byte, counted from the first byte
/// that the call met: those that had been read before come first.
#[derive(Clone, Copy, Debug, PartialEq, Eq)]
pub enum WireStop {
    Bad(H, u64),
    /// A read failed, and what was read by then decides nothing.
    ReadFault,
    Memory,
}

impl fmt::Display for WireStop {
    fn fmt<W: fmt::Write>(&self, f: &mut fmt::Formatter<W>) -> fmt::Result {
        match self {
            WireStop::Bad(why, offset) => write!(f, "{why} at {offset}"),
            WireStop::ReadFault => f.write_str("a read failed"),
            WireStop::Memory => f.write_str("out of memory"),
        }
    }
}

impl Error for WireStop {}
