//! The names of types.
ghost use Rattle.std.specs.Prelude.{◌≡◌, IfOk, IsTrue, Some};
ghost use Rattle.pp_values.specs.Kinds.{is_kind};
ghost use Rattle.pp_types.specs.Names.{bare_name, normal_name, is_type_name, is_read, read_next, is_word};

use pp_values::{Kind, Memory, Text};
use std::alloc::Global;

/// What was read last of a type's name.
#[derive(Clone, Copy)]
pub enum Read {
    /// Nothing of a segment.
    Nothing,
    /// A letter, a digit or `_`.
    Word,
    /// A `-`, behind which a segment goes on.
    Dash,
    /// The first of two colons.
    Colon,
}

/// Whether the text is the name of a type: segments joined by `::`, each of which begins with a capital. A leading `::`
/// may stand before them.
pub fn is_type_name(name: &str) -> bool
    ensures { result ≡ is_type_name name.now }
{
    is_read(bare_name(name).as_bytes())
}

fn is_read(bytes: &[u8]) -> bool
    ensures { result ≡ is_read (Some Read.Nothing) bytes.now }
{
    let mut read = Read::Nothing;
    for byte in bytes {
        match read_next(read, *byte) {
            Some(next) => read = next,
            None => return false,
        }
    }
    matches!(read, Read::Word)
}

fn read_next(read: Read, byte: u8) -> Option<Read>
    ensures { result ≡ read_next read byte }
{
    match read {
        Read::Nothing => {
            if byte.is_ascii_uppercase() {
                Some(Read::Word)
            } else {
                None
            }
        }
        Read::Word => after_word(byte),
        Read::Dash => {
            if is_word(byte) {
                Some(Read::Word)
            } else {
                None
            }
        }
        Read::Colon => {
            if byte == b':' {
                Some(Read::Nothing)
            } else {
                None
            }
        }
    }
}

fn after_word(byte: u8) -> Option<Read>
    ensures { result ≡ read_next Read.Word byte }
{
    match byte {
        b'-' => Some(Read::Dash),
        b':' => Some(Read::Colon),
        _ => {
            if is_word(byte) {
                Some(Read::Word)
            } else {
                None
            }
        }
    }
}

fn is_word(byte: u8) -> bool
    ensures { result ≡ is_word byte }
{
    byte.is_ascii_alphanumeric() || byte == b'_'
}

/// Without a leading `::`.
pub fn bare_name<'a>(name: &'a str) -> &'a str
    ensures { result.now ≡ bare_name name.now }
{
    match name.strip_prefix("::") {
        Some(rest) => rest,
        None => name,
    }
}

/// The name as it is called where it names a class or a kind of resource: without a leading `::`, in lower case.
pub fn normal_name(alloc: Global, name: &str) -> Result<Text, Memory>
    ensures { IfOk result (λ t. t ≡ normal_name name.now) }
{
    let mut normal = String::from_str(alloc, bare_name(name))?;
    normal.make_ascii_lowercase();
    Ok(Text::new(normal))
}

/// The kind of resource of that name.
pub fn named_kind(alloc: Global, name: &str) -> Result<Kind, Memory>
    requires { IsTrue (is_type_name name.now) }
    ensures { IfOk result (λ k. k ≡ normal_name name.now) }
{
    Ok(Kind::new(normal_name(alloc, name)?))
}
