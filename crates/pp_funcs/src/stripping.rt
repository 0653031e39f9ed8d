//! White space at the ends of a text.
ghost use Rattle.std.specs.Prelude.{◌≡◌, ◌<◌, ◌≤◌, ◌-◌, length, take, drop, slice_index};
ghost use Rattle.pp_funcs.specs.Texts.{is_white, without_front, without_back, stripped};

/// The text without white space at both ends.
pub fn stripped(text: &str) -> &str
    ensures { result.now ≡ stripped text.now }
{
    without_back(without_front(text))
}

fn without_front(text: &str) -> &str
    ensures { result.now ≡ without_front text.now }
{
    &text[white_len(text.as_bytes())..]
}

fn without_back(text: &str) -> &str
    ensures { result.now ≡ without_back text.now }
{
    &text[..front_len(text.as_bytes())]
}

/// How much white space a text begins with.
fn white_len(text: &[u8]) -> usize
    ensures value { drop result text.now ≡ without_front text.now }
    ensures within { result ≤ length text.now }
    ensures ascii { 0 < result → slice_index text.now (result - 1) < 128 }
{
    for (i, byte) in text.iter().enumerate() {
        if !is_white(*byte) {
            return i;
        }
    }
    text.len()
}

/// How long a text is without the white space at its end.
fn front_len(text: &[u8]) -> usize
    ensures value { take result text.now ≡ without_back text.now }
    ensures within { result ≤ length text.now }
    ensures ascii { result < length text.now → slice_index text.now result < 128 }
{
    let mut len = text.len();
    while len > 0 && is_white(text[len - 1]) {
        len -= 1;
    }
    len
}

/// Space, tab, line feed, vertical tab, form feed and carriage return.
fn is_white(byte: u8) -> bool
    ensures { result ≡ is_white byte }
{
    byte == b' ' || (byte >= b'\t' && byte <= b'\r')
}
