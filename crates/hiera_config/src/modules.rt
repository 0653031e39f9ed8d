//! The module of a key.
ghost use Rattle.std.specs.Prelude.{◌≡◌, option_map};
ghost use Rattle.hiera_config.specs.Sources.{module_of, is_segment, goes_on_name, stands, begins_name, is_name_byte};

use crate::cutting::cut_at;

/// What stands before the first `::` of a key, where that can be a module's name.
pub fn module_of(key: &str) -> Option<&str>
    ensures { option_map (λ m. m.now) result ≡ module_of key.now }
{
    let (segment, _) = cut_at(key, "::")?;
    if is_segment(segment.as_bytes()) {
        Some(segment)
    } else {
        None
    }
}

fn is_segment(name: &[u8]) -> bool
    ensures { result ≡ is_segment name.now }
{
    match name {
        [first, rest @ ..] => begins_name(*first) && goes_on_name(rest),
        [] => false,
    }
}

fn goes_on_name(name: &[u8]) -> bool
    ensures { result ≡ goes_on_name name.now }
{
    let mut left = name;
    while let [byte, after @ ..] = left {
        if !stands(*byte, after) {
            return false;
        }
        left = after;
    }
    true
}

/// Whether the byte may stand before these.
fn stands(byte: u8, after: &[u8]) -> bool
    ensures { result ≡ stands byte after.now }
{
    match after {
        [next, ..] => is_name_byte(byte) || byte == b'-' && is_name_byte(*next),
        [] => is_name_byte(byte),
    }
}

fn begins_name(byte: u8) -> bool
    ensures { result ≡ begins_name byte }
{
    byte.is_ascii_lowercase() || byte == b'_'
}

fn is_name_byte(byte: u8) -> bool
    ensures { result ≡ is_name_byte byte }
{
    byte.is_ascii_alphanumeric() || byte == b'_'
}
