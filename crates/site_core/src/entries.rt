ghost use Rattle.std.specs.Prelude.{◌≡◌, ◌<◌, ◌^◌, [], ◌∷◌, ◌++◌, length, max, is_ok, if◌then◌else◌, IfOk, IsTrue};
ghost use Rattle.std.specs.Arc.{arc_value};
ghost use Rattle.site_core.specs.Events.{opens, is_later, are_entries};
ghost use Rattle.site_core.specs.EntryViews.{event_of, events_of};
ghost use Rattle.site_core.specs.Resuming.{past_author, base_of};

use crate::entry::Entry;
use pp_values::Memory;
use std::alloc::Global;
use std::marker::Model;
use std::sync::Arc;

/// The entries of a history. The first one opens a site, and no other one does. Facts in them are facts.
///
/// A contract sees what each entry says.
#[derive(Drop)]
pub struct Entries<S> {
    items: Vec<Entry<S>>,
}

impl<S> Model for Entries<S> {
    ghost use Rattle.std.specs.Prelude.{List};
    ghost use Rattle.site_core.specs.Events.{Event, coded_events};

    ghost Value = { List (Event S) };

    ghost coded = { coded_events S.code };

    ghost use Rattle.std.specs.Prelude.{IsTrue};
    ghost use Rattle.site_core.specs.Events.{are_entries};
    ghost use Rattle.site_core.specs.EntryViews.{events_of};

    ghost view = { λ e. events_of e.items.items };

    ghost invariant = { λ e. IsTrue (are_entries (events_of e.items.items)) };
}

impl<S> Entries<S> {
    /// The one entry that opens this site.
    pub fn open(alloc: Global, site: Arc<S>) -> Result<Entries<S>, Memory>
    where
        S: Drop,
        ensures { IfOk result (λ e. e ≡ opens (arc_value site) ∷ []) }
    {
        let mut items = Vec::new(alloc);
        items.push(Entry::Open { site })?;
        Ok(Entries { items })
    }

    pub fn from_vec(items: Vec<Entry<S>>) -> Entries<S>
        requires { IsTrue (are_entries (events_of items.items)) }
        ensures { result ≡ events_of items.items }
    {
        Entries { items }
    }

    pub fn into_vec(self) -> Vec<Entry<S>>
        ensures entries { events_of result.items ≡ self }
        ensures shape { IsTrue (are_entries self) }
    {
        self.items
    }

    /// At least 1.
    pub fn len(&self) -> usize
        ensures { result ≡ length self.now }
    {
        self.items.len()
    }

    pub fn as_slice(&self) -> &[Entry<S>]
        ensures entries { events_of result.now ≡ self.now }
        ensures shape { IsTrue (are_entries self.now) }
    {
        self.items.as_slice()
    }

    /// The greatest author, where an entry has one.
    pub fn greatest_author(&self) -> Option<u32>
        ensures { past_author result ≡ base_of self.now }
    {
        greatest_of(self.items.as_slice())
    }

    /// Appends an entry that opens no site. Where there is no memory, the list stays as it was.
    pub fn push(&mut self, entry: Entry<S>) -> Result<(), Memory>
    where
        S: Drop,
        requires { IsTrue (is_later (event_of entry)) }
        ensures { self.new ≡ (if is_ok result then self.old ++ event_of entry ∷ [] else self.old) }
    {
        self.items.push(entry)?;
        Ok(())
    }
}

fn greatest_of<S>(entries: &[Entry<S>]) -> Option<u32>
    ensures { past_author result ≡ base_of (events_of entries.now) }
{
    let mut greatest = None;
    let mut left = entries;
    while let [entry, after @ ..] = left {
        greatest = greater(greatest, entry.author());
        left = after;
    }
    greatest
}

fn greater(first: Option<u32>, second: Option<u32>) -> Option<u32>
    ensures { past_author result ≡ max (past_author first) (past_author second) }
{
    match (first, second) {
        (Some(first), Some(second)) => Some(first.max(second)),
        (Some(author), None) | (None, Some(author)) => Some(author),
        (None, None) => None,
    }
}
