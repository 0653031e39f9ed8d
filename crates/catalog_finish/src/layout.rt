ghost use Rattle.std.specs.Prelude.{◌≡◌, IfOk, OnOk, map, option_and_then, option_to_list, slice_get, slice_index_or};
ghost use Rattle.std.specs.Prelude.{[]};
ghost use Rattle.catalog_finish.specs.Layouts.{layout_of, index_at, indexes_at, rising, inside as inside_meant};
ghost use Rattle.catalog_finish.specs.Layouts.{indexes_from, outers_from, containers};
ghost use Rattle.catalog_finish.specs.Tables.{lists, put_at, more};

use pp_values::Memory;
use res_book::{Book, Containment, Row};
use res_core::Indexes;
use std::alloc::Global;
use std::collections::BTreeSet;
use std::marker::Model;

/// Where the declarations stand in the catalog, and which of them contain which by `contain`.
#[derive(Drop)]
pub struct Layout {
    /// For each declaration its index in the catalog, where it has one.
    indexes: Vec<Option<u32>>,
    /// For each declaration the numbers of those that contain it by `contain`.
    outers: Vec<Vec<u32>>,
}

impl Model for Layout {
    ghost use Rattle.catalog_finish.specs.Layouts.{Layout as Seen};

    ghost Value = { Seen };

    ghost use Rattle.catalog_finish.specs.Tables.{lists};

    ghost view = { λ l. record { indexes = l.indexes.items; outers = lists l.outers.items } };
}

impl Layout {
    pub fn new(alloc: Global, book: &Book, pairs: &[Containment]) -> Result<Layout, Memory>
        ensures { IfOk result (λ l. l ≡ layout_of book.now pairs.now) }
    {
        let indexes = indexes(alloc, book)?;
        let outers = outers(alloc, book, pairs)?;
        Ok(Layout { indexes, outers })
    }

    /// The indexes of what contains a declaration directly.
    #[tactic(auto, using(crate::proofs::LayoutLemmas::rising_alone))]
    pub fn inside(&self, alloc: Global, number: u32, row: &Row) -> Result<Indexes, Memory>
        ensures { IfOk result (λ l. l ≡ inside_meant self.now number row.now) }
    {
        if row.declared.item.kind.is("class") {
            return rising(alloc, &self.indexes, self.outers(number));
        }
        match row.declared.container {
            Some(container) => list_of_one(alloc, self.index(container)),
            None => Ok(Indexes::new(alloc)),
        }
    }

    /// The index of a declaration, where it is live.
    pub fn index(&self, number: u32) -> Option<u32>
        ensures { result ≡ index_at self.now.indexes number }
    {
        index_at(&self.indexes, number)
    }

    fn outers(&self, number: u32) -> &[u32]
        ensures { result.now ≡ slice_index_or self.now.outers number [] }
    {
        match self.outers.get(number as usize) {
            Some(outers) => outers.as_slice(),
            None => &[],
        }
    }
}

/// The index of each declaration: how many live ones stand before it.
#[tactic(auto, using(crate::proofs::LayoutLemmas::index_end))]
fn indexes(alloc: Global, book: &Book) -> Result<Vec<Option<u32>>, Memory>
    ensures { IfOk result (λ v. v.items ≡ indexes_from 0 book.now) }
{
    let mut indexes = Vec::with_capacity(alloc, book.count() as usize)?;
    let mut next = 0;
    for number in 0..book.count() {
        if book.live(number) {
            indexes.push(Some(next))?;
            next += 1;
        } else {
            indexes.push(None)?;
        }
    }
    Ok(indexes)
}

#[tactic(auto, using(crate::proofs::LayoutLemmas::more_than_none))]
fn outers(alloc: Global, book: &Book, pairs: &[Containment]) -> Result<Vec<Vec<u32>>, Memory>
    ensures { IfOk result (λ v. lists v.items ≡ outers_from pairs.now 0 book.now) }
{
    let mut outers = no_outers(alloc, book)?;
    for pair in pairs {
        put_outer(&mut outers, pair)?;
    }
    Ok(outers)
}

fn no_outers(alloc: Global, book: &Book) -> Result<Vec<Vec<u32>>, Memory>
    ensures { IfOk result (λ v. lists v.items ≡ map (λ r. []) book.now) }
{
    let mut outers = Vec::with_capacity(alloc, book.count() as usize)?;
    for _number in 0..book.count() {
        outers.push(Vec::new(alloc))?;
    }
    Ok(outers)
}

/// A number of no declaration has no place.
#[tactic(auto, using(crate::proofs::LayoutLemmas::put_past, crate::proofs::LayoutLemmas::put_within, crate::proofs::LayoutLemmas::lists_long))]
fn put_outer(outers: &mut Vec<Vec<u32>>, pair: &Containment) -> Result<(), Memory>
    ensures { OnOk result (lists outers.new.items ≡ put_at pair.now.inner pair.now.outer (lists outers.old.items)) }
{
    let inner = pair.inner as usize;
    if inner < outers.len() {
        outers[inner].push(pair.outer)?;
    }
    Ok(())
}

fn index_at(indexes: &[Option<u32>], number: u32) -> Option<u32>
    ensures { result ≡ index_at indexes.now number }
{
    match indexes.get(number as usize) {
        Some(index) => *index,
        None => None,
    }
}

/// The index, where there is one.
fn list_of_one(alloc: Global, index: Option<u32>) -> Result<Indexes, Memory>
    ensures { IfOk result (λ l. l ≡ option_to_list index) }
{
    let mut found = Indexes::new(alloc);
    if let Some(index) = index {
        found.push(index)?;
    }
    Ok(found)
}

/// The indexes of these declarations in rising order, each once.
fn rising(alloc: Global, indexes: &[Option<u32>], numbers: &[u32]) -> Result<Indexes, Memory>
    ensures { IfOk result (λ l. l ≡ rising (indexes_at indexes.now numbers.now)) }
{
    let mut found = BTreeSet::new(alloc);
    let mut left = numbers;
    while let [number, after @ ..] = left {
        if let Some(index) = index_at(indexes, *number) {
            found.insert(index)?;
        }
        left = after;
    }
    in_order(alloc, found)
}

fn in_order(alloc: Global, found: BTreeSet<u32>) -> Result<Indexes, Memory>
    ensures { IfOk result (λ l. l ≡ found.keys) }
{
    let mut items = Vec::new(alloc);
    for index in found {
        items.push(index)?;
    }
    Ok(Indexes::from_vec(items))
}
