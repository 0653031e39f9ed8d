//! Marks, blanks and lines.

ghost use Rattle.std.specs.Prelude.{◌≡◌, ◌≢◌, ◌+◌, ◌-◌, ◌^◌, ◌<◌, ◌≤◌, length, slice_index, IsTrue};
ghost use Rattle.epp_text.specs.Pieces as spec;

/// The byte at a place, or 0 behind the end.
pub fn byte(bytes: &[u8], at: usize) -> u8
    ensures value { result ≡ slice_index bytes.now at }
    ensures within { result ≢ 0 → at < length bytes.now }
{
    if at < bytes.len() { bytes[at] } else { 0 }
}

/// `<%`
pub fn opens(bytes: &[u8]) -> bool
    ensures value { result ≡ spec.opens bytes.now }
    ensures within { IsTrue result → 2 ≤ length bytes.now }
{
    byte(bytes, 0) == b'<' && byte(bytes, 1) == b'%'
}

/// `%>`
pub fn closes(bytes: &[u8]) -> bool
    ensures value { result ≡ spec.closes bytes.now }
    ensures within { IsTrue result → 2 ≤ length bytes.now }
{
    byte(bytes, 0) == b'%' && byte(bytes, 1) == b'>'
}

/// `<%%`
pub fn writes_opener(bytes: &[u8]) -> bool
    ensures value { result ≡ spec.writes_opener bytes.now }
    ensures within { IsTrue result → 3 ≤ length bytes.now }
{
    opens(bytes) && byte(bytes, 2) == b'%'
}

/// `%%>`
pub fn writes_closer(bytes: &[u8]) -> bool
    ensures value { result ≡ spec.writes_closer bytes.now }
    ensures within { IsTrue result → 3 ≤ length bytes.now }
{
    match bytes {
        [b'%', behind @ ..] => closes(behind),
        _ => false,
    }
}

/// `<%-`
pub fn drops_indent(bytes: &[u8]) -> bool
    ensures { result ≡ spec.drops_indent bytes.now }
{
    opens(bytes) && byte(bytes, 2) == b'-'
}

pub fn is_blank(b: u8) -> bool
    ensures { result ≡ spec.is_blank b }
{
    b == b' ' || b == b'\t'
}

/// How many blanks stand at the front.
pub fn blanks_len(bytes: &[u8]) -> usize
    ensures value { result ≡ spec.blanks_len bytes.now }
    ensures within { result ≤ length bytes.now }
    ensures ascii { 0 < result → slice_index bytes.now (result - 1) < 128 }
{
    for at in 0..bytes.len() {
        if !is_blank(bytes[at]) {
            return at;
        }
    }
    bytes.len()
}

/// The length of the line break at the front, or 0 where there is none.
pub fn break_len(bytes: &[u8]) -> usize
    ensures value { result ≡ spec.break_len bytes.now }
    ensures within { result ≤ length bytes.now }
    ensures ascii { 0 < result → slice_index bytes.now (result - 1) ≡ 10 }
{
    if byte(bytes, 0) == b'\n' {
        1
    } else if byte(bytes, 0) == b'\r' && byte(bytes, 1) == b'\n' {
        2
    } else {
        0
    }
}

/// The line behind a text that begins on this line.
pub fn line_behind(mut line: u32, bytes: &[u8]) -> u32
    requires { line + length bytes.now < 2 ^ 32 }
    ensures value { result ≡ spec.line_behind line bytes.now }
    ensures within { result ≤ line + length bytes.now }
{
    for b in bytes {
        if *b == b'\n' {
            line += 1;
        }
    }
    line
}
