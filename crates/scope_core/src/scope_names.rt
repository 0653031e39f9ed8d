//! The names of one scope.
ghost use Rattle.std.specs.Prelude.{◌≡◌, ◌+◌, ◌≤◌, ◌++◌, ◌∷◌, [], None, is_ok, if◌then◌else◌, option_map, length};
ghost use Rattle.std.specs.Prelude.{slice_get, take, OnOk};
ghost use Rattle.std.specs.Ordering.{is_eq};
ghost use Rattle.pp_values.specs.Rising.{text_cmp};
ghost use Rattle.pp_values.specs.Views.{view};
ghost use Rattle.scope_core.specs.Keyed.{is_named, replaced};
ghost use Rattle.scope_core.specs.Names.{value_of, with_value};

use crate::binding::Binding;
use crate::named::Named;
use pp_values::{Memory, Text, Value};
use std::alloc::Global;
use std::marker::Model;

/// How many names lie in a list and are compared one by one. What is set behind them goes into an ordered map.
const LISTED_NAMES: usize = 8;

/// Values by name, in the byte order of the names.
///
/// A lambda's call sets one name or two, for a moment, so the first names lie in a list, which is made, read and let go
/// at less cost than a map. The next call mostly sets the same names, so they stay in the list behind those that count.
#[derive(Drop)]
pub struct ScopeNames {
    first: Vec<(Text, Binding)>,
    /// How many of the first count.
    count: usize,
    later: Named<Binding>,
}

impl Model for ScopeNames {
    ghost use Rattle.std.specs.Prelude.{ℕ, List};
    ghost use Rattle.std.specs.Coded.{coded×, coded_list};
    ghost use Rattle.pp_values.specs.Codes.{coded_text, coded_datum};
    ghost use Rattle.pp_values.specs.Datum.{Datum};

    ghost Value = { List (List ℕ × Datum) };

    ghost coded = { coded_list (coded× coded_text coded_datum) };

    ghost use Rattle.std.specs.Prelude.{◌≤◌, length, take};
    ghost use Rattle.scope_core.specs.Keyed.{held};

    ghost view = { λ n. held (take n.count n.first.items) n.later };

    ghost invariant = { λ n. n.count ≤ length n.first.items };
}

impl ScopeNames {
    /// No names.
    pub fn new(alloc: Global) -> ScopeNames
        ensures { result ≡ [] }
    {
        ScopeNames {
            first: Vec::new(alloc),
            count: 0,
            later: Named::new(alloc),
        }
    }

    /// Lets all names go.
    pub fn clear(&mut self, alloc: Global)
        ensures { self.new ≡ [] }
    {
        self.count = 0;
        self.later = Named::new(alloc);
    }

    #[inline(always)]
    #[tactic(auto, using(crate::proofs::Puts::found_in_both))]
    pub fn value_of(&self, name: &[u8]) -> Option<&Value>
        ensures { option_map (λ v. view v.now) result ≡ value_of name.now self.now }
    {
        let found = find_listed(&self.first[..self.count], name);
        if found.is_some() {
            return found;
        }
        later_value(&self.later, name)
    }

    /// Sets a name that has no value. Where there is no memory, all stays as it was.
    #[inline(always)]
    #[tactic(auto, using(crate::proofs::Puts::at_end, crate::proofs::Puts::into_later))]
    pub fn add(&mut self, alloc: Global, name: &Text, value: Binding) -> Result<(), Memory>
        requires { value_of name.now self.old ≡ None }
        ensures { self.new ≡ (if is_ok result then with_value name.now value self.old else self.old) }
    {
        if self.count < LISTED_NAMES {
            put_last(alloc, &mut self.first, self.count, name, value)?;
            self.count += 1;
            return Ok(());
        }
        put_later(alloc, &mut self.later, name, value)
    }
}

// Few scopes have so many names: kept apart, so that what looks among the first ones is short.
#[inline(never)]
fn later_value<'a>(names: &'a Named<Binding>, name: &[u8]) -> Option<&'a Value>
    ensures { option_map (λ v. view v.now) result ≡ value_of name.now names.now }
{
    match names.get(name) {
        Some(value) => Some(value.as_value()),
        None => None,
    }
}

#[inline(never)]
fn put_later(
    alloc: Global,
    names: &mut Named<Binding>,
    name: &Text,
    value: Binding,
) -> Result<(), Memory>
    ensures { names.new ≡ (if is_ok result then with_value name.now value names.old else names.old) }
{
    let name = name.copy(alloc)?;
    names.set(alloc, name, value)
}

/// Whether a text is this name.
#[inline(always)]
#[tactic(auto, using(crate::proofs::Puts::named))]
fn is_name(text: &Text, name: &[u8]) -> bool
    ensures { result ≡ is_eq (text_cmp name.now text.now) }
{
    text.as_str().as_bytes() == name
}

#[inline(always)]
fn find_listed<'a>(names: &'a [(Text, Binding)], name: &[u8]) -> Option<&'a Value>
    ensures { option_map (λ v. view v.now) result ≡ value_of name.now names.now }
{
    for (other, value) in names {
        if is_name(other, name) {
            return Some(value.as_value());
        }
    }
    None
}

/// Puts a name behind so many, in the place of what stands there. Where there is no memory, these stay as they were.
#[inline(always)]
#[tactic(auto, using(crate::proofs::Lasts::length_replaced, crate::proofs::Lasts::replaced_last, crate::proofs::Lasts::replaced_front, crate::proofs::Lasts::there))]
fn put_last(
    alloc: Global,
    names: &mut Vec<(Text, Binding)>,
    count: usize,
    name: &Text,
    value: Binding,
) -> Result<(), Memory>
    requires { count ≤ length names.old.items }
    ensures last { OnOk result (take (count + 1) names.new.items ≡ take count names.old.items ++ (name.now, value) ∷ []) }
    ensures front { take count names.new.items ≡ take count names.old.items }
    ensures room { OnOk result (count + 1 ≤ length names.new.items) }
    ensures front_room { count ≤ length names.new.items }
{
    if is_name_at(names, count, name) {
        replace(names, count, value);
        return Ok(());
    }
    put_new(alloc, names, count, name, value)
}

#[inline(always)]
fn is_name_at(names: &[(Text, Binding)], at: usize, name: &Text) -> bool
    ensures { result ≡ is_named name.now (slice_get names.now at) }
{
    match names.get(at) {
        Some((other, _value)) => is_name(other, name.as_str().as_bytes()),
        None => false,
    }
}

#[inline(never)]
#[tactic(auto, using(crate::proofs::Lasts::front_of, crate::proofs::Lasts::last_of, crate::proofs::Lasts::length_of, crate::proofs::Lasts::front_length, crate::proofs::Lasts::front_again))]
fn put_new(
    alloc: Global,
    names: &mut Vec<(Text, Binding)>,
    count: usize,
    name: &Text,
    value: Binding,
) -> Result<(), Memory>
    requires { count ≤ length names.old.items }
    ensures last { OnOk result (take (count + 1) names.new.items ≡ take count names.old.items ++ (name.now, value) ∷ []) }
    ensures front { take count names.new.items ≡ take count names.old.items }
    ensures room { OnOk result (count + 1 ≤ length names.new.items) }
    ensures front_room { count ≤ length names.new.items }
{
    let name = name.copy(alloc)?;
    names.truncate(count);
    names.push((name, value))?;
    Ok(())
}

#[inline(always)]
fn replace(names: &mut Vec<(Text, Binding)>, at: usize, value: Binding)
    ensures { names.new.items ≡ replaced at value names.old.items }
{
    if let Some(entry) = names.get_mut(at) {
        entry.1 = value;
    }
}
