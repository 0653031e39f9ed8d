//! The numbers of declarations, by reference.
ghost use Rattle.std.specs.Prelude.{◌≡◌, ℕ, List, if◌then◌else◌, IfOk, IsSome};
ghost use Rattle.std.specs.BTreeMap.{get};
ghost use Rattle.std.specs.Cmp.Lexicographic.{slice_cmp};
ghost use Rattle.std.specs.Ordering.{nat_cmp};
ghost use Rattle.std.specs.Str.{bytes_eq};
ghost use Rattle.res_book.specs.Numbers.{number_in, number_at, Claims, ClaimsTitle};

use pp_values::{Memory, Text};
use std::alloc::Global;
use std::collections::BTreeMap;

/// The numbers of declarations, by kind and title.
///
/// Titles are what manifests and other nodes choose, so they are looked up by their order and not by a hash.
#[derive(Drop)]
pub struct Numbers {
    by_kind: BTreeMap<Text, BTreeMap<Text, u32>>,
}

impl Numbers {
    pub fn new(alloc: Global) -> Numbers
        ensures { (kind title : List ℕ) → number_at result.by_kind kind title ≡ None }
    {
        Numbers {
            by_kind: BTreeMap::new(alloc),
        }
    }

    pub fn get(&self, kind: &Text, title: &Text) -> Option<u32>
        ensures { result ≡ number_at self.now.by_kind kind.now title.now }
    {
        match self.by_kind.get(kind) {
            Some(titles) => titles.get(title).copied(),
            None => None,
        }
    }

    /// Sets the number of a kind and title that has none. Where it has one, that is the answer, and what is found
    /// stays the same. So it does where there is no memory.
    pub fn claim(
        &mut self,
        alloc: Global,
        kind: &Text,
        title: &Text,
        number: u32,
    ) -> Result<Option<u32>, Memory>
        ensures { Claims kind.now title.now number self.old.by_kind self.new.by_kind result }
    {
        if let Some(titles) = self.by_kind.get_mut(kind) {
            return claim_title(alloc, titles, title, number);
        }
        let kind = kind.copy(alloc)?;
        let titles = only(alloc, title, number)?;
        self.by_kind.insert(kind, titles)?;
        Ok(None)
    }
}

/// Sets the number of a title that has none. The titles are searched once, unless it has one.
fn claim_title(
    alloc: Global,
    titles: &mut BTreeMap<Text, u32>,
    title: &Text,
    number: u32,
) -> Result<Option<u32>, Memory>
    ensures { ClaimsTitle title.now number titles.old titles.new result }
{
    let key = title.copy(alloc)?;
    match titles.insert(key, number)? {
        Some(earlier) => {
            put_back(titles, title, earlier);
            Ok(Some(earlier))
        }
        None => Ok(None),
    }
}

/// Gives a title the number that it had.
fn put_back(titles: &mut BTreeMap<Text, u32>, title: &Text, number: u32)
    requires { IsSome (get (slice_cmp nat_cmp) titles.old title.now) }
    ensures { (t : List ℕ) → number_in (Some titles.new) t
        ≡ (if bytes_eq title.now t then Some number else number_in (Some titles.old) t) }
{
    if let Some(place) = titles.get_mut(title) {
        *place = number;
    }
}

/// One title, with its number.
fn only(alloc: Global, title: &Text, number: u32) -> Result<BTreeMap<Text, u32>, Memory>
    ensures { IfOk result
        (λ titles. (t : List ℕ) → number_in (Some titles) t ≡ (if bytes_eq title.now t then Some number else None)) }
{
    let title = title.copy(alloc)?;
    let mut titles = BTreeMap::new(alloc);
    titles.insert(title, number)?;
    Ok(titles)
}
