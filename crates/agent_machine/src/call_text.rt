//! Texts of calls and references that are compared with keys piece by piece, so that a look-up takes no memory.
ghost use Rattle.std.specs.Prelude.{◌≡◌, ◌==◌, ◌∷◌, [], if◌then◌else◌};
ghost use Rattle.std.specs.Char.{to_ascii_uppercase};
ghost use Rattle.std.specs.Cmp.Lexicographic.{nat_list_cmp_total};
ghost use Rattle.std_collections.specs.BTreeMap.Comparable.{le_lt_trans};
ghost use Rattle.pp_values.specs.Rising.{text_cmp};
ghost use Rattle.pp_values.specs.Words.{kind_text, reference_text};
ghost use Rattle.agent_machine.specs.CallTexts.{Meets, pieces_text};

use pp_values::{Kind, Reference, Text};
use std::cmp::Ordering;
use std_collections::btree_map::Comparable;

/// A reference as documents print it, with what stands before and behind it, such as `write File[/a] mode`.
#[derive(Clone, Copy)]
pub struct CallText<'a> {
    pub before: &'a str,
    pub what: &'a Reference,
    pub gap: &'a str,
    pub name: &'a str,
}

/// Compares one byte with the first of the others. Where they are the same, the rest is still to be compared.
fn meet_byte(byte: u8, other: &[u8]) -> Result<&[u8], Ordering>
    ensures { Meets (byte ∷ []) other.now result }
{
    match other {
        [] => Err(Ordering::Greater),
        [first, rest @ ..] => match byte.cmp(first) {
            Ordering::Less => Err(Ordering::Less),
            Ordering::Equal => Ok(rest),
            Ordering::Greater => Err(Ordering::Greater),
        },
    }
}

fn meet<'a>(piece: &str, other: &'a [u8]) -> Result<&'a [u8], Ordering>
    ensures { Meets piece.now other.now result }
{
    let mut left = piece.as_bytes();
    let mut rest = other;
    while let [byte, after @ ..] = left {
        rest = meet_byte(*byte, rest)?;
        left = after;
    }
    Ok(rest)
}

fn meet_kind<'a>(kind: &Kind, other: &'a [u8]) -> Result<&'a [u8], Ordering>
    ensures { Meets (kind_text kind.now) other.now result }
{
    let mut last = b':';
    let mut left = kind.as_str().as_bytes();
    let mut rest = other;
    while let [byte, after @ ..] = left {
        rest = meet_byte(capital_after(last, *byte), rest)?;
        last = *byte;
        left = after;
    }
    Ok(rest)
}

/// The byte as it stands after `last`.
fn capital_after(last: u8, byte: u8) -> u8
    ensures { result ≡ (if last == 58 then to_ascii_uppercase byte else byte) }
{
    if last == b':' {
        byte.to_ascii_uppercase()
    } else {
        byte
    }
}

fn meet_reference<'a>(what: &Reference, other: &'a [u8]) -> Result<&'a [u8], Ordering>
    ensures { Meets (reference_text what.now) other.now result }
{
    let rest = meet_kind(&what.kind, other)?;
    let rest = meet("[", rest)?;
    let rest = meet(what.title.as_str(), rest)?;
    let rest = meet("]", rest)?;
    Ok(rest)
}

fn meet_call<'a>(text: &CallText<'_>, other: &'a [u8]) -> Result<&'a [u8], Ordering>
    ensures { Meets (pieces_text text.now) other.now result }
{
    let rest = meet(text.before, other)?;
    let rest = meet_reference(text.what, rest)?;
    let rest = meet(text.gap, rest)?;
    let rest = meet(text.name, rest)?;
    Ok(rest)
}

fn compare(text: &CallText<'_>, key: &Text) -> Ordering
    ensures { result ≡ text_cmp (pieces_text text.now) key.now }
{
    match meet_call(text, key.as_str().as_bytes()) {
        Ok([]) => Ordering::Equal,
        Ok([_, ..]) => Ordering::Less,
        Err(order) => order,
    }
}

impl<'a> Comparable<Text> for CallText<'a> {
    ghost compare = { λ q key. text_cmp (pieces_text q) key };

    ghost respects_cmp = { λ q x y. nat_list_cmp_total.congr (pieces_text q) x y };

    ghost below_greater = { λ q x y. le_lt_trans nat_list_cmp_total (pieces_text q) x y };

    fn compare(&self, key: &Text) -> Ordering {
        compare(self, key)
    }
}
