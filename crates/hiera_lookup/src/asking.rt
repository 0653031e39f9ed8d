//! What a value looks up.
ghost use Rattle.std.specs.Prelude.{◌≡◌, ◌++◌, OnOk};
ghost use Rattle.std.specs.List.{flat_map};
ghost use Rattle.pp_values.specs.Datum.{data_of, entries_of};
ghost use Rattle.pp_values.specs.Views.{view, views, pair_views};
ghost use Rattle.hiera_lookup.specs.Asks.{piece_asks, text_asks, asks, list_asks, pair_asks};

use hiera_config::{Piece, interpolates, pieces, whole_alias};
use pp_values::{Memory, Text, Value};
use std::alloc::Global;

/// What a text of the data looks up, or the faulty rest of it.
#[derive(Debug, Drop)]
pub enum Ask {
    /// The value of this key is wanted.
    Key(Text),
    /// The text goes on in no lawful way: from its `%{` on.
    Broken(Text),
}

/// Appends what the value looks up, in the order of its texts.
#[cycle(asks)]
pub fn add_asks(alloc: Global, asked: &mut Vec<Ask>, value: &Value) -> Result<(), Memory>
    ensures { OnOk result (asked.new.items ≡ asked.old.items ++ asks (view value.now)) }
{
    match value {
        Value::Text(text) => add_text(alloc, asked, text.as_str()),
        Value::List(items) => add_list(alloc, asked, items.as_slice()),
        Value::Hash(pairs) => add_pairs(alloc, asked, pairs.as_slice()),
        _ => Ok(()),
    }
}

#[cycle(asks)]
fn add_list(alloc: Global, asked: &mut Vec<Ask>, items: &[Value]) -> Result<(), Memory>
    ensures { OnOk result (asked.new.items ≡ asked.old.items ++ list_asks (data_of (views items.now))) }
{
    for item in items {
        add_asks(alloc, asked, item)?;
    }
    Ok(())
}

#[cycle(asks)]
fn add_pairs(alloc: Global, asked: &mut Vec<Ask>, pairs: &[(Value, Value)]) -> Result<(), Memory>
    ensures { OnOk result (asked.new.items ≡ asked.old.items ++ pair_asks (entries_of (pair_views pairs.now))) }
{
    for (key, value) in pairs {
        add_asks(alloc, asked, key)?;
        add_asks(alloc, asked, value)?;
    }
    Ok(())
}

/// Most texts interpolate nothing, and are not taken to pieces.
fn add_text(alloc: Global, asked: &mut Vec<Ask>, text: &str) -> Result<(), Memory>
    ensures { OnOk result (asked.new.items ≡ asked.old.items ++ text_asks text.now) }
{
    if interpolates(text) {
        add_of_pieces(alloc, asked, text)
    } else {
        Ok(())
    }
}

fn add_of_pieces(alloc: Global, asked: &mut Vec<Ask>, text: &str) -> Result<(), Memory>
    ensures { OnOk result (asked.new.items ≡ asked.old.items ++ text_asks text.now) }
{
    match whole_alias(text) {
        Some(key) => {
            asked.push(Ask::Key(Text::from_str(alloc, key)?))?;
            Ok(())
        }
        None => add_pieces(alloc, asked, &pieces(alloc, text)?),
    }
}

fn add_pieces(alloc: Global, asked: &mut Vec<Ask>, pieces: &[Piece]) -> Result<(), Memory>
    ensures { OnOk result (asked.new.items ≡ asked.old.items ++ flat_map piece_asks pieces.now) }
{
    for piece in pieces {
        add_piece(alloc, asked, piece)?;
    }
    Ok(())
}

fn add_piece(alloc: Global, asked: &mut Vec<Ask>, piece: &Piece) -> Result<(), Memory>
    ensures { OnOk result (asked.new.items ≡ asked.old.items ++ piece_asks piece.now) }
{
    match piece {
        Piece::Asks(key) => asked.push(Ask::Key(key.copy(alloc)?))?,
        Piece::Broken(text) => asked.push(Ask::Broken(text.copy(alloc)?))?,
        Piece::Letters(_text) => {}
        Piece::Reads(_name) => {}
    }
    Ok(())
}
