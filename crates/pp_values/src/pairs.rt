ghost use Rattle.std.specs.Prelude.{◌≡◌, ◌+◌, ◌<◌, ◌≤◌, [], ◌↔◌, length, is_ok, if◌then◌else◌, IsTrue, IfOk, IfSome, option_map, vec_len};
ghost use Rattle.pp_values.specs.Depth.{IsDepth, deepest_value, max_nesting};
ghost use Rattle.pp_values.specs.Keys.{is_key, are_distinct, value_at, with_pair};
ghost use Rattle.pp_values.specs.Places.{place_of, with_value};
ghost use Rattle.pp_values.specs.Views.{view, pair_views};

use crate::keys::same_key;
use crate::memory::Memory;
use crate::nesting::{depth_around, depth_of, depth_within_pairs};
use crate::value::Value;
use std::alloc::Global;
use std::marker::Model;
use std::mem;

/// The pairs of a hash, in order. Each key is an integer or a text, and no two are the same.
///
/// A contract sees what each key and value says.
#[cycle(value)]
pub struct Pairs {
    items: Vec<(Value, Value)>,
    /// How deep the hash nests, itself included.
    depth: u32,
}

impl Drop for Pairs {
    #[cycle(dropping)]
    fn drop(self) {
        let Pairs {
            items: _items,
            depth: _depth,
        } = self;
    }
}

impl Model for Pairs {
    ghost use Rattle.std.specs.Prelude.{List};
    ghost use Rattle.pp_values.specs.Datum.{Pair};
    ghost use Rattle.pp_values.specs.Codes.{coded_pairs};
    ghost use Rattle.pp_values.specs.Sizes.{pairs_size};

    ghost Value = { List Pair };

    ghost coded = { coded_pairs };

    ghost use Rattle.std.specs.Prelude.{IsTrue, ◌+◌};
    ghost use Rattle.pp_values.specs.Depth.{IsDepth, deepest_value};
    ghost use Rattle.pp_values.specs.Keys.{are_distinct};
    ghost use Rattle.pp_values.specs.Views.{pair_views};

    ghost view = { λ l. pair_views l.items.items };

    ghost invariant = { λ l. IsTrue (are_distinct (pair_views l.items.items))
        × IsDepth l.depth (deepest_value (pair_views l.items.items) + 1) };

    ghost size = { pairs_size };

    ghost use Rattle.pp_values.specs.Falls.{pairs_fall};

    ghost size_decreases = { λ l h. pairs_fall l.items.items };
}

impl Pairs {
    pub fn new(alloc: Global) -> Pairs
        ensures { result ≡ [] }
    {
        Pairs {
            items: Vec::new(alloc),
            depth: 1,
        }
    }

    /// A hash of these pairs. Where it would nest deeper than [`MAX_NESTING`](crate::MAX_NESTING), that is want of memory.
    pub fn from_vec(items: Vec<(Value, Value)>) -> Result<Pairs, Memory>
        requires { IsTrue (are_distinct (pair_views items.items)) }
        ensures { IfOk result (λ l. l ≡ pair_views items.items) }
    {
        let depth = depth_around(depth_within_pairs(items.as_slice()))?;
        Ok(Pairs { items, depth })
    }

    pub fn into_vec(self) -> Vec<(Value, Value)>
        ensures pairs { pair_views result.items ≡ self }
        ensures distinct { IsTrue (are_distinct self) }
    {
        let Pairs {
            items,
            depth: _depth,
        } = self;
        items
    }

    pub fn len(&self) -> usize
        ensures { result ≡ length self.now }
    {
        self.items.len()
    }

    pub fn is_empty(&self) -> bool
        ensures { IsTrue result ↔ (self.now ≡ []) }
    {
        self.items.is_empty()
    }

    pub fn as_slice(&self) -> &[(Value, Value)]
        ensures pairs { pair_views result.now ≡ self.now }
        ensures distinct { IsTrue (are_distinct self.now) }
    {
        self.items.as_slice()
    }

    /// The value of a key. A value that is no key has none.
    pub fn get(&self, key: &Value) -> Option<&Value>
        ensures { option_map (λ v. view v.now) result ≡ value_at (view key.now) self.now }
    {
        value_at(&self.items, key)
    }

    /// As `get`, but looks at this place first: two hashes mostly have their keys in one order.
    pub(crate) fn get_near(&self, place: usize, key: &Value) -> Option<&Value>
        ensures { option_map (λ v. view v.now) result ≡ value_at (view key.now) self.now }
    {
        value_near(&self.items, place, key)
    }

    /// Sets the value of a key: in the key's place where it has one, and else at the end.
    /// Where there is no memory, or the hash would nest deeper than [`MAX_NESTING`](crate::MAX_NESTING), it stays as it was.
    pub fn put(&mut self, key: Value, value: Value) -> Result<(), Memory>
        requires { IsTrue (is_key (view key)) }
        ensures { self.new ≡ (if is_ok result then with_pair (view key) (view value) self.old else self.old) }
    {
        let depth = depth_around(depth_of(&value))?;
        match place_of(&self.items, &key) {
            Some(place) => {
                drop(key);
                replace_value(&mut self.items, place, value);
                self.depth = depth_once_set(&self.items, self.depth, depth);
                Ok(())
            }
            None => {
                self.items.push((key, value))?;
                self.depth = self.depth.max(depth);
                Ok(())
            }
        }
    }

    /// How deep the hash nests, itself included.
    pub(crate) fn depth(&self) -> u32
        ensures { IsDepth result (deepest_value self.now + 1) }
    {
        self.depth
    }
}

fn value_at<'a>(items: &'a [(Value, Value)], key: &Value) -> Option<&'a Value>
    ensures { option_map (λ v. view v.now) result ≡ value_at (view key.now) (pair_views items.now) }
{
    for (other, value) in items {
        if same_key(key, other) {
            return Some(value);
        }
    }
    None
}

fn value_near<'a>(items: &'a [(Value, Value)], place: usize, key: &Value) -> Option<&'a Value>
    requires { IsTrue (are_distinct (pair_views items.now)) }
    ensures { option_map (λ v. view v.now) result ≡ value_at (view key.now) (pair_views items.now) }
{
    if place < items.len() {
        let (other, value) = &items[place];
        if same_key(key, other) {
            return Some(value);
        }
    }
    value_at(items, key)
}

fn place_of(items: &[(Value, Value)], key: &Value) -> Option<usize>
    ensures place { result ≡ place_of (view key.now) (pair_views items.now) }
    ensures within { IfSome result (λ n. n < length items.now) }
{
    for (i, (other, _)) in items.iter().enumerate() {
        if same_key(key, other) {
            return Some(i);
        }
    }
    None
}

/// The depth of a hash once a pair was set in its place: how deep it was before, and would be with that pair alone.
fn depth_once_set(items: &[(Value, Value)], before: u32, alone: u32) -> u32
    requires limit { deepest_value (pair_views items.now) < max_nesting }
    requires deepest { before ≤ alone → deepest_value (pair_views items.now) + 1 ≡ alone }
    ensures { result ≡ deepest_value (pair_views items.now) + 1 }
{
    if before <= alone {
        return alone;
    }
    // The value that was there may have been the deepest.
    depth_within_pairs(items) + 1
}

fn replace_value(items: &mut Vec<(Value, Value)>, place: usize, value: Value)
    requires { place < vec_len items.old }
    ensures { pair_views items.new.items ≡ with_value (view value) place (pair_views items.old.items) }
{
    drop(mem::replace(&mut items[place].1, value));
}
