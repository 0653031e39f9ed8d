//! A value with what it reads and looks up in its places.
ghost use Rattle.std.specs.Prelude.{◌≡◌, ◌++◌, [], IfOk, IsTrue, OnOk, option_map, string_bytes};
ghost use Rattle.std.specs.List.{flat_map};
ghost use Rattle.pp_values.specs.Datum.{data_of, entries_of};
ghost use Rattle.pp_values.specs.Keys.{is_key};
ghost use Rattle.pp_values.specs.Views.{view, views, pair_views};
ghost use Rattle.hiera_config.specs.Pieces.{pieces};
ghost use Rattle.hiera_lookup.specs.Filled.{answer_to, said, piece_text, text_filled, or_empty, as_key, filled};
ghost use Rattle.hiera_lookup.specs.Filled.{list_filled, pairs_filled};
ghost use Rattle.hiera_lookup.specs.World.{seen};

use crate::answer::{Answers, answer_to};
use crate::world::World;
use hiera_config::{Piece, interpolates, pieces, whole_alias};
use hiera_merge::KeyedPairs;
use pp_values::{Memory, Pairs, Text, Value, Values, copy, text_of, write_value};
use std::alloc::Global;

/// The value with the values of variables and these answers in their places.
#[cycle(fill)]
pub fn fill(
    alloc: Global,
    world: &World<'_>,
    answers: &Answers,
    value: &Value,
) -> Result<Value, Memory>
    ensures { IfOk result (λ v. view v ≡ filled ((seen world.now).reads) (answer_to answers.now) (view value.now)) }
{
    match value {
        Value::Text(text) => fill_text(alloc, world, answers, text.as_str()),
        Value::List(items) => Ok(Value::List(fill_list(alloc, world, answers, items.as_slice())?)),
        Value::Hash(pairs) => Ok(Value::Hash(fill_pairs(alloc, world, answers, pairs.as_slice())?)),
        _ => copy(alloc, value),
    }
}

#[cycle(fill)]
fn fill_list(
    alloc: Global,
    world: &World<'_>,
    answers: &Answers,
    items: &[Value],
) -> Result<Values, Memory>
    ensures { IfOk result (λ l. data_of l
        ≡ list_filled ((seen world.now).reads) (answer_to answers.now) (data_of (views items.now))) }
{
    let mut filled = Vec::new(alloc);
    for item in items {
        filled.push(fill(alloc, world, answers, item)?)?;
    }
    let values = Values::from_vec(filled)?;
    Ok(values)
}

#[cycle(fill)]
fn fill_pairs(
    alloc: Global,
    world: &World<'_>,
    answers: &Answers,
    pairs: &[(Value, Value)],
) -> Result<Pairs, Memory>
    ensures { IfOk result (λ ps. ps
        ≡ pairs_filled ((seen world.now).reads) (answer_to answers.now) (entries_of (pair_views pairs.now)) []) }
{
    let mut filled = KeyedPairs::new(alloc);
    for (key, value) in pairs {
        let key = fill(alloc, world, answers, key)?;
        let key = as_key(alloc, &key)?;
        let value = fill(alloc, world, answers, value)?;
        filled = filled.with(alloc, key, value)?;
    }
    let pairs = filled.into_pairs()?;
    Ok(pairs)
}

/// A key of a hash: an integer or a text stands for itself, another value for its text.
pub fn as_key(alloc: Global, value: &Value) -> Result<Value, Memory>
    ensures key { IfOk result (λ v. view v ≡ as_key (view value.now)) }
    ensures is_key { IfOk result (λ v. IsTrue (is_key (view v))) }
{
    match value {
        Value::Int(number) => Ok(Value::Int(*number)),
        Value::Text(text) => Ok(Value::Text(text.copy(alloc)?)),
        _ => Ok(Value::Text(text_of(alloc, value)?)),
    }
}

/// Most texts interpolate nothing, and stand for themselves.
fn fill_text(
    alloc: Global,
    world: &World<'_>,
    answers: &Answers,
    text: &str,
) -> Result<Value, Memory>
    ensures { IfOk result (λ v. view v ≡ text_filled ((seen world.now).reads) (answer_to answers.now) text.now) }
{
    if interpolates(text) {
        fill_opened(alloc, world, answers, text)
    } else {
        Ok(Value::Text(Text::from_str(alloc, text)?))
    }
}

fn fill_opened(
    alloc: Global,
    world: &World<'_>,
    answers: &Answers,
    text: &str,
) -> Result<Value, Memory>
    ensures { IfOk result (λ v. view v ≡ text_filled ((seen world.now).reads) (answer_to answers.now) text.now) }
{
    match whole_alias(text) {
        Some(key) => copy_or_empty(alloc, answer_to(alloc, answers, key)?),
        None => Ok(Value::Text(fill_pieces(alloc, world, answers, text)?)),
    }
}

fn copy_or_empty(alloc: Global, value: Option<&Value>) -> Result<Value, Memory>
    ensures { IfOk result (λ v. view v ≡ or_empty (option_map (λ w. view w.now) value.entry)) }
{
    match value {
        Some(value) => copy(alloc, value),
        None => Ok(Value::Text(Text::from_str(alloc, "")?)),
    }
}

fn fill_pieces(
    alloc: Global,
    world: &World<'_>,
    answers: &Answers,
    text: &str,
) -> Result<Text, Memory>
    ensures { IfOk result (λ t. t
        ≡ flat_map (piece_text ((seen world.now).reads) (answer_to answers.now)) (pieces text.now)) }
{
    let pieces = pieces(alloc, text)?;
    let mut out = String::new(alloc);
    write_pieces(&mut out, alloc, world, answers, &pieces)?;
    Ok(Text::new(out))
}

fn write_pieces(
    out: &mut String,
    alloc: Global,
    world: &World<'_>,
    answers: &Answers,
    pieces: &[Piece],
) -> Result<(), Memory>
    ensures { OnOk result (string_bytes out.new ≡ string_bytes out.old
        ++ flat_map (piece_text ((seen world.now).reads) (answer_to answers.now)) pieces.now) }
{
    for piece in pieces {
        write_piece(out, alloc, world, answers, piece)?;
    }
    Ok(())
}

fn write_piece(
    out: &mut String,
    alloc: Global,
    world: &World<'_>,
    answers: &Answers,
    piece: &Piece,
) -> Result<(), Memory>
    ensures { OnOk result (string_bytes out.new ≡ string_bytes out.old
        ++ piece_text ((seen world.now).reads) (answer_to answers.now) piece.now) }
{
    match piece {
        Piece::Letters(text) => {
            out.push_str(text.as_str())?;
            Ok(())
        }
        Piece::Reads(name) => write_said(out, world.variables.value(alloc, name.as_str())?),
        Piece::Asks(key) => write_said(out, answer_to(alloc, answers, key.as_str())?),
        Piece::Broken(_text) => Ok(()),
    }
}

/// Appends the text of the value, where there is one.
fn write_said(out: &mut String, value: Option<&Value>) -> Result<(), Memory>
    ensures { OnOk result (string_bytes out.new
        ≡ string_bytes out.old ++ said (option_map (λ w. view w.now) value.entry)) }
{
    match value {
        Some(value) => write_value(out, value),
        None => Ok(()),
    }
}
