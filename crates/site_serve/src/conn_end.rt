ghost use Rattle.std.specs.Prelude.{◌≡◌};

use http_wire::H;
use std::fmt;

/// The most requests that a connection is answered.
pub const MOST_ANSWERS: u32 = 1024;

/// How a connection ended.
#[derive(Clone, Copy, Debug, PartialEq, Eq)]
pub enum ConnEnd {
    /// The input ended between requests, or the last request that was answered ends the connection.
    Closed,
    /// A message was faulty. Its first byte has this place, counted from the connection's first one.
    Bad(H, u64),
    ReadFault,
    WriteFault,
    Memory,
}

impl fmt::Display for ConnEnd {
    fn fmt<W: fmt::Write>(&self, f: &mut fmt::Formatter<W>) -> fmt::Result {
        match self {
            ConnEnd::Closed => f.write_str("closed"),
            ConnEnd::Bad(why, _) => write!(f, "{why}"),
            ConnEnd::ReadFault => f.write_str("read fault"),
            ConnEnd::WriteFault => f.write_str("write fault"),
            ConnEnd::Memory => f.write_str("memory"),
        }
    }
}
