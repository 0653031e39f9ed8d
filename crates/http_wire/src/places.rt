//! How far the bytes of a head have come.
ghost use Rattle.std.specs.Prelude.{◌≡◌};
ghost use Rattle.http_wire.specs.Places as spec;

use httparse::{is_method_token, is_uri_token};

/// Where the next byte of a head would stand.
#[derive(Clone, Copy, Debug, PartialEq, Eq)]
pub(crate) enum Place {
    /// At the beginning of a line, before the request line.
    Blank,
    /// Behind a carriage return there.
    BlankReturn,
    Method,
    Target,
    /// Further on in a line.
    Line,
    /// At the beginning of a line behind the request line.
    LineStart,
    /// Behind a carriage return there.
    LineReturn,
    /// Behind the empty line that ends the head.
    Ended,
}

fn in_line(byte: u8) -> Place
    ensures { result ≡ spec.in_line byte }
{
    if byte == b'\n' {
        Place::LineStart
    } else {
        Place::Line
    }
}

fn in_blank(byte: u8) -> Place
    ensures { result ≡ spec.in_blank byte }
{
    if byte == b'\n' {
        Place::Blank
    } else if byte == b'\r' {
        Place::BlankReturn
    } else if is_method_token(byte) {
        Place::Method
    } else {
        Place::Line
    }
}

fn in_method(byte: u8) -> Place
    ensures { result ≡ spec.in_method byte }
{
    if is_method_token(byte) {
        Place::Method
    } else if byte == b' ' {
        Place::Target
    } else {
        in_line(byte)
    }
}

fn at_line_start(byte: u8) -> Place
    ensures { result ≡ spec.at_line_start byte }
{
    if byte == b'\n' {
        Place::Ended
    } else if byte == b'\r' {
        Place::LineReturn
    } else {
        Place::Line
    }
}

impl Place {
    fn next(self, byte: u8) -> Place
        ensures { result ≡ spec.next self byte }
    {
        match self {
            Place::Blank => in_blank(byte),
            Place::BlankReturn => if byte == b'\n' {
                Place::Blank
            } else {
                Place::Line
            },
            Place::Method => in_method(byte),
            Place::Target => if is_uri_token(byte) {
                Place::Target
            } else {
                in_line(byte)
            },
            Place::Line => in_line(byte),
            Place::LineStart => at_line_start(byte),
            Place::LineReturn => if byte == b'\n' {
                Place::Ended
            } else {
                Place::Line
            },
            Place::Ended => Place::Ended,
        }
    }

    /// The place behind these bytes. None is looked at behind the end of the head.
    #[tactic(auto, using(crate::proofs::Watching::stays_ended))]
    pub(crate) fn after(self, bytes: &[u8]) -> Place
        ensures { result ≡ spec.after self bytes.now }
    {
        let mut place = self;
        let mut left = bytes;
        while let [byte, after @ ..] = left {
            if place.is_ended() {
                return Place::Ended;
            }
            place = place.next(*byte);
            left = after;
        }
        place
    }

    pub(crate) fn is_ended(self) -> bool
        ensures { result ≡ spec.is_ended self }
    {
        matches!(self, Place::Ended)
    }

    pub(crate) fn is_target(self) -> bool
        ensures { result ≡ spec.is_target self }
    {
        matches!(self, Place::Target)
    }
}
