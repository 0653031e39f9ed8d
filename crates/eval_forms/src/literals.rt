//! Lists, hashes, and texts with interpolation.
ghost use Rattle.std.specs.Prelude.{◌≡◌, [], string_bytes};
ghost use Rattle.eval_forms.specs.Literals as spec;
ghost use Rattle.eval_world.specs.Nests.{Nests};
ghost use Rattle.eval_world.specs.Outcomes.{Gives, same};

use crate::answering::bad_operand;
use crate::growing::Growing;
use eval_world::{Evaluated, Forms, Goal, Here, Meaning, World};
use pp_tree::{Args, Pair, Piece};
use pp_values::{Items, Stop, Text, Value, is_key, write_value};

/// `[1, *$a]`
#[tactic(auto, unfolding(crate::specs::Literals::list_rule))]
pub fn list<F: Fn(&mut World<'_>, Goal<'_>, Here, u32) -> Result<Evaluated, Stop>, M: Meaning>(
    forms: &Forms<F, M>,
    world: &mut World<'_>,
    items: &Args,
    here: Here,
) -> Result<Evaluated, Stop>
    requires { Nests (M.within forms.now.left) forms.now.left (F.pre forms.now.inner) (F.post forms.now.inner) }
    ensures { Gives same (spec.list_rule (M.within forms.now.left) items.now here world.old) result world.new }
{
    let values = forms.values(world, items, here)?;
    Ok(Evaluated::new(Value::List(values)))
}

/// `{ a => 1, b => 2 }`
#[tactic(auto, unfolding(crate::specs::Literals::hash_rule, crate::specs::Literals::pairs_from))]
pub fn hash<F: Fn(&mut World<'_>, Goal<'_>, Here, u32) -> Result<Evaluated, Stop>, M: Meaning>(
    forms: &Forms<F, M>,
    world: &mut World<'_>,
    pairs: &Items<Pair>,
    line: u32,
    here: Here,
) -> Result<Evaluated, Stop>
    requires { Nests (M.within forms.now.left) forms.now.left (F.pre forms.now.inner) (F.post forms.now.inner) }
    ensures { Gives same (spec.hash_rule (M.within forms.now.left) pairs.now line here world.old) result world.new }
{
    let mut done = Growing::for_count(world.heap.alloc(), pairs.len());
    let mut rest = pairs.as_slice();
    while let Some((pair, more)) = rest.split_first() {
        done = with_one_more(forms, world, done, pair, line, here)?;
        rest = more;
    }
    Ok(Evaluated::new(Value::Hash(done.into_pairs()?)))
}

/// `a => 1` behind the pairs that are there. A value that can be no key is refused before the pair's value is
/// evaluated.
#[tactic(auto, unfolding(crate::specs::Literals::pair_rule, crate::specs::Literals::value_rule))]
fn with_one_more<F: Fn(&mut World<'_>, Goal<'_>, Here, u32) -> Result<Evaluated, Stop>, M: Meaning>(
    forms: &Forms<F, M>,
    world: &mut World<'_>,
    done: Growing,
    pair: &Pair,
    line: u32,
    here: Here,
) -> Result<Growing, Stop>
    requires { Nests (M.within forms.now.left) forms.now.left (F.pre forms.now.inner) (F.post forms.now.inner) }
    ensures { Gives same (spec.pair_rule (M.within forms.now.left) done pair.now line here world.old)
        result world.new }
{
    let key = forms.value(world, &pair.key, here)?;
    if !is_key(key.as_value()) {
        return Err(Stop::Fault(bad_operand(world, "=>", line, here)?));
    }
    let value = forms.value(world, &pair.value, here)?;
    let alloc = world.heap.alloc();
    Ok(done.with(alloc, key.into_value(), value.into_value())?)
}

/// How many bytes a text with interpolation begins with room for, so that most of them are taken from memory once. With
/// what the heap adds to each block they are 64.
const TEXT_ROOM: usize = 56;

/// `"a${b}c"`
#[tactic(auto, unfolding(crate::specs::Literals::interpolated_rule, crate::specs::Literals::pieces_from))]
pub fn interpolated<
    F: Fn(&mut World<'_>, Goal<'_>, Here, u32) -> Result<Evaluated, Stop>,
    M: Meaning,
>(
    forms: &Forms<F, M>,
    world: &mut World<'_>,
    pieces: &Items<Piece>,
    here: Here,
) -> Result<Evaluated, Stop>
    requires { Nests (M.within forms.now.left) forms.now.left (F.pre forms.now.inner) (F.post forms.now.inner) }
    ensures { Gives same (spec.interpolated_rule (M.within forms.now.left) pieces.now here world.old) result world.new }
{
    let mut done = String::with_capacity(world.heap.alloc(), TEXT_ROOM)?;
    let mut rest = pieces.as_slice();
    while let Some((piece, more)) = rest.split_first() {
        add_piece(forms, world, &mut done, piece, here)?;
        rest = more;
    }
    Ok(Evaluated::new(Value::Text(Text::new(done))))
}

/// A piece of a text, behind those that are there.
#[tactic(auto, unfolding(crate::specs::Literals::piece_rule))]
fn add_piece<F: Fn(&mut World<'_>, Goal<'_>, Here, u32) -> Result<Evaluated, Stop>, M: Meaning>(
    forms: &Forms<F, M>,
    world: &mut World<'_>,
    done: &mut String,
    piece: &Piece,
    here: Here,
) -> Result<(), Stop>
    requires { Nests (M.within forms.now.left) forms.now.left (F.pre forms.now.inner) (F.post forms.now.inner) }
    ensures { Gives (λ _. string_bytes done.new)
        (spec.piece_rule (M.within forms.now.left) (string_bytes done.old) piece.now here world.old) result world.new }
{
    match piece {
        Piece::Text(text) => done.push_str(text.as_str())?,
        Piece::Value(expr) => {
            if let Some(value) = forms.known(world, expr, here) {
                write_value(done, value)?;
                return Ok(());
            }
            let value = forms.value(world, expr, here)?;
            write_value(done, value.as_value())?;
        }
    }
    Ok(())
}
