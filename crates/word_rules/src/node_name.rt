ghost use Rattle.std.specs.Prelude.{◌≡◌, ◌&&◌, nat_le};
ghost use Rattle.std.specs.List.{list_all};
ghost use Rattle.word_rules.specs.NodeNames.{is_node_name, is_node_name_byte};

use crate::limits::MOST_NAME_CHARACTERS;

/// Whether this may be the name of a node: 1 to 255 characters out of `a` to `z`, digits, `.`, `_` and `-`.
pub fn is_node_name(word: &str) -> bool
    ensures { result ≡ is_node_name word.now }
{
    has_node_name_length(word.len()) && has_node_name_bytes(word.as_bytes())
}

fn has_node_name_bytes(bytes: &[u8]) -> bool
    ensures { result ≡ list_all is_node_name_byte bytes.now }
{
    bytes.iter().all(|&byte| is_node_name_byte(byte))
}

fn has_node_name_length(length: usize) -> bool
    ensures { result ≡ (nat_le 1 length && nat_le length MOST_NAME_CHARACTERS) }
{
    1 <= length && length <= MOST_NAME_CHARACTERS
}

fn is_node_name_byte(byte: u8) -> bool
    ensures { result ≡ is_node_name_byte byte }
{
    matches!(byte, b'a'..=b'z' | b'0'..=b'9' | b'.' | b'_' | b'-')
}
