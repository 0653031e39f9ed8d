//! The pieces of a text of the data.
ghost use Rattle.std.specs.Prelude.{◌≡◌, [], ◌∷◌, ◌++◌, IfOk, OnOk, is_some, option_map, codes};
ghost use Rattle.hiera_config.specs.declared.interpolation.Piece.TheVariants as piece;
ghost use Rattle.hiera_config.specs.Cuts.{cut_at};
ghost use Rattle.hiera_config.specs.FormView.{form_view};
ghost use Rattle.hiera_config.specs.Written.{piece_in, goes_on};
ghost use Rattle.hiera_config.specs.Pieces.{pieces, whole_alias, if_ends, alias_of};

use crate::cutting::{after_prefix, cut_at, trimmed};
use crate::forms::{Form, form_of};
use pp_values::{Memory, Text};
use std::alloc::Global;

/// A piece of a text of the data.
#[derive(Debug, Drop)]
pub enum Piece {
    Letters(Text),
    /// The text of a variable's value: a name, with steps behind dots to dig by.
    Reads(Text),
    /// The text of the value of a key.
    Asks(Text),
    /// No lawful interpolation: the text from `%{` to its end.
    Broken(Text),
}

/// The pieces of a text of the data, up to the first broken one.
pub fn pieces(alloc: Global, text: &str) -> Result<Vec<Piece>, Memory>
    ensures { IfOk result (λ v. v.items ≡ pieces text.now) }
{
    let mut pieces = Vec::new(alloc);
    let mut rest = text;
    while let Some((before, behind)) = cut_at(rest, "%{") {
        pieces.push(Piece::Letters(Text::from_str(alloc, before)?))?;
        let Some((inner, after)) = cut_at(behind, "}") else {
            add_broken(alloc, &mut pieces, behind)?;
            return Ok(pieces);
        };
        if !add_form(alloc, &mut pieces, form_of(trimmed(inner)), behind)? {
            return Ok(pieces);
        }
        rest = after;
    }
    pieces.push(Piece::Letters(Text::from_str(alloc, rest)?))?;
    Ok(pieces)
}

/// Appends what comes of a form. Whether the text may go on behind it.
fn add_form(
    alloc: Global,
    pieces: &mut Vec<Piece>,
    form: Form<'_>,
    behind: &str,
) -> Result<bool, Memory>
    ensures added { OnOk result
        (pieces.new.items ≡ pieces.old.items ++ piece_in behind.now (form_view form.entry) ∷ []) }
    ensures goes_on { IfOk result (λ b. b ≡ goes_on (form_view form.entry)) }
{
    match form {
        Form::Variable(name) => {
            pieces.push(Piece::Reads(Text::from_str(alloc, name)?))?;
            Ok(true)
        }
        Form::LookedUp(key) => {
            pieces.push(Piece::Asks(Text::from_str(alloc, key)?))?;
            Ok(true)
        }
        Form::Said(text) => {
            pieces.push(Piece::Letters(Text::from_str(alloc, text)?))?;
            Ok(true)
        }
        Form::Alias(_) => {
            add_broken(alloc, pieces, behind)?;
            Ok(false)
        }
        Form::Unlawful => {
            add_broken(alloc, pieces, behind)?;
            Ok(false)
        }
    }
}

fn add_broken(alloc: Global, pieces: &mut Vec<Piece>, behind: &str) -> Result<(), Memory>
    ensures { OnOk result (pieces.new.items ≡ pieces.old.items ++ piece.Broken (codes "%{" ++ behind.now) ∷ []) }
{
    let mut text = String::from_str(alloc, "%{")?;
    text.push_str(behind)?;
    pieces.push(Piece::Broken(Text::new(text)))?;
    Ok(())
}

/// Whether the text interpolates anything. A text that does not is its one piece.
pub fn interpolates(text: &str) -> bool
    ensures { result ≡ is_some (cut_at (codes "%{") text.now) }
{
    cut_at(text, "%{").is_some()
}

/// The key of an alias that is the whole text.
#[tactic(auto, unfolding(crate::specs::Pieces::whole_alias))]
pub fn whole_alias(text: &str) -> Option<&str>
    ensures { option_map (λ t. t.now) result ≡ whole_alias text.now }
{
    let (inner, after) = cut_at(after_prefix(text, "%{")?, "}")?;
    alias_in(inner, after)
}

fn alias_in<'a>(inner: &'a str, after: &str) -> Option<&'a str>
    ensures { option_map (λ t. t.now) result ≡ if_ends (inner.now, after.now) }
{
    if after.is_empty() {
        alias_of(form_of(trimmed(inner)))
    } else {
        None
    }
}

fn alias_of(form: Form<'_>) -> Option<&str>
    ensures { option_map (λ t. t.now) result ≡ alias_of (form_view form.entry) }
{
    match form {
        Form::Alias(key) => Some(key),
        Form::Variable(_) => None,
        Form::LookedUp(_) => None,
        Form::Said(_) => None,
        Form::Unlawful => None,
    }
}
