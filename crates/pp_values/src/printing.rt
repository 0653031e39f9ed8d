//! How kinds, titles and references are printed.
ghost use Rattle.std.specs.Prelude.{◌≡◌, ◌==◌, ◌++◌, if◌then◌else◌, IfOk, OnOk, encode_utf8, string_bytes};
ghost use Rattle.std.specs.Char.{to_ascii_uppercase};
ghost use Rattle.pp_values.specs.Words.{ArePrintedApart, before, is_quote_or_backslash, escaped, quoted, kind_text, reference_text, quoted_reference_text};

use crate::kind::Kind;
use crate::memory::Memory;
use crate::reference::Reference;
use crate::text::Text;
use std::alloc::Global;

/// Appends a kind of resource as it is printed: `Web::Vhost` for `web::vhost`.
///
/// Where there is no memory, the beginning of what was to be appended may stand in `out`. So it is with the
/// other calls that append.
pub fn write_kind(out: &mut String, kind: &Kind) -> Result<(), Memory>
    ensures { OnOk result (string_bytes out.new ≡ string_bytes out.old ++ kind_text kind.now) }
{
    let mut last = ':';
    for letter in kind.as_str().chars() {
        out.push(capital_after(last, letter))?;
        last = letter;
    }
    Ok(())
}

/// Appends a reference as documents and faults print it: `Web::Vhost[a]`.
pub fn write_reference(out: &mut String, reference: &Reference) -> Result<(), Memory>
    ensures { OnOk result (string_bytes out.new ≡ string_bytes out.old ++ reference_text reference.now) }
{
    write_kind(out, &reference.kind)?;
    out.push_str("[")?;
    out.push_str(reference.title.as_str())?;
    out.push_str("]")?;
    Ok(())
}

/// A kind of resource as it is printed: `Web::Vhost` for `web::vhost`.
pub fn kind_text(alloc: Global, kind: &Kind) -> Result<Text, Memory>
    ensures { IfOk result (λ t. t ≡ kind_text kind.now) }
{
    let mut out = String::new(alloc);
    write_kind(&mut out, kind)?;
    Ok(Text::new(out))
}

/// References are the same where documents and faults print them alike.
pub fn references_print_apart()
    ensures { ArePrintedApart }
{}

/// Appends a reference as an interpolated text shows it: `Web::Vhost['a']`.
pub(crate) fn write_quoted_reference(out: &mut String, reference: &Reference) -> Result<(), Memory>
    ensures { OnOk result (string_bytes out.new ≡ string_bytes out.old ++ quoted_reference_text reference.now) }
{
    write_kind(out, &reference.kind)?;
    out.push_str("[")?;
    write_quoted(out, &reference.title)?;
    out.push_str("]")?;
    Ok(())
}

/// Appends a text in single quotes.
pub(crate) fn write_quoted(out: &mut String, text: &Text) -> Result<(), Memory>
    ensures { OnOk result (string_bytes out.new ≡ string_bytes out.old ++ quoted text.now) }
{
    out.push_str("'")?;
    write_escaped(out, text.as_str())?;
    out.push_str("'")?;
    Ok(())
}

fn write_escaped(out: &mut String, text: &str) -> Result<(), Memory>
    ensures { OnOk result (string_bytes out.new ≡ string_bytes out.old ++ escaped text.now) }
{
    for letter in text.chars() {
        write_escaped_letter(out, letter)?;
    }
    Ok(())
}

fn write_escaped_letter(out: &mut String, letter: char) -> Result<(), Memory>
    ensures { OnOk result (string_bytes out.new ≡ string_bytes out.old ++ escaped (encode_utf8 letter)) }
{
    if is_quote_or_backslash(letter) {
        out.push('\\')?;
        out.push(letter)?;
        Ok(())
    } else {
        out.push(letter)?;
        Ok(())
    }
}

fn is_quote_or_backslash(letter: char) -> bool
    ensures { result ≡ is_quote_or_backslash letter }
{
    letter == '\'' || letter == '\\'
}

/// The letter as it stands after `last`.
fn capital_after(last: char, letter: char) -> char
    ensures { result ≡ (if last == 58 then to_ascii_uppercase letter else letter) }
{
    if last == ':' {
        letter.to_ascii_uppercase()
    } else {
        letter
    }
}

/// Appends what stands before item `index` of a list.
pub(crate) fn write_before(out: &mut String, index: usize) -> Result<(), Memory>
    ensures { OnOk result (string_bytes out.new ≡ string_bytes out.old ++ before index) }
{
    if index != 0 {
        out.push_str(", ")?;
    }
    Ok(())
}
