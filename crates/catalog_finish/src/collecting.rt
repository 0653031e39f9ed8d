//! What collectors stand for in relations.
ghost use Rattle.std.specs.Prelude.{◌≡◌, ◌<◌, Some, IfOk, length, slice_get};
ghost use Rattle.catalog_finish.specs.Relating.{is_matched as matched_meant, is_taken as taken_meant, taken_index};
ghost use Rattle.catalog_finish.specs.Relating.{taken as all_taken, collected as collected_meant};
ghost use Rattle.catalog_finish.specs.Sources.{sources_of};
ghost use Rattle.catalog_finish.specs.Tables.{at_live};

use crate::exporting::is_exported;
use crate::tables::Tables;
use collector_query::matches;
use pp_values::Memory;
use res_book::{Collector, Row};
use res_core::Indexes;
use std::alloc::Global;

fn is_matched(
    alloc: Global,
    tables: &Tables<'_>,
    collector: &Collector,
    number: u32,
    row: &Row,
) -> Result<bool, Memory>
    requires { slice_get tables.now.book.now number ≡ Some row.now }
    ensures { IfOk result (λ b. b ≡ matched_meant tables.now.lines.now collector.now row.now) }
{
    let item = &row.declared.item;
    let query = collector.query.as_query();
    if row.mode.is_imported() {
        return Ok(collector.exported && matches(query, &item.title, &item.tags, &item.attributes));
    }
    if collector.exported && !is_exported(&row.mode) {
        return Ok(false);
    }
    let attributes = tables.lines.attributes(alloc, tables.book, number)?;
    Ok(matches(query, &item.title, &item.tags, &attributes))
}

fn is_taken(
    alloc: Global,
    tables: &Tables<'_>,
    collector: &Collector,
    number: u32,
    row: &Row,
) -> Result<bool, Memory>
    requires { slice_get tables.now.book.now number ≡ Some row.now }
    ensures { IfOk result (λ b. b ≡ taken_meant tables.now.lines.now collector.now row.now) }
{
    if collector.kind == row.declared.item.kind {
        return is_matched(alloc, tables, collector, number, row);
    }
    Ok(false)
}

fn index_taken(
    alloc: Global,
    tables: &Tables<'_>,
    collector: &Collector,
    number: u32,
    row: &Row,
) -> Result<Indexes, Memory>
    requires { slice_get tables.now.book.now number ≡ Some row.now }
    ensures { IfOk result (λ l. l ≡ taken_index (sources_of tables.now) collector.now number row.now) }
{
    let mut found = Indexes::new(alloc);
    if is_taken(alloc, tables, collector, number, row)? {
        if let Some(index) = tables.layout.index(number) {
            found.push(index)?;
        }
    }
    Ok(found)
}

fn taken_here(
    alloc: Global,
    tables: &Tables<'_>,
    collector: &Collector,
    number: u32,
) -> Result<Indexes, Memory>
    requires { number < length tables.now.book.now }
    ensures { IfOk result (λ l. l
        ≡ at_live (taken_index (sources_of tables.now) collector.now) tables.now.book.now number) }
{
    if tables.book.live(number) {
        return index_taken(alloc, tables, collector, number, tables.book.row(number));
    }
    Ok(Indexes::new(alloc))
}

fn taken(alloc: Global, tables: &Tables<'_>, collector: &Collector) -> Result<Indexes, Memory>
    ensures { IfOk result (λ l. l ≡ all_taken (sources_of tables.now) collector.now) }
{
    let mut found = Indexes::new(alloc);
    for number in 0..tables.book.count() {
        found.append(taken_here(alloc, tables, collector, number)?)?;
    }
    Ok(found)
}

/// The indexes of what the collector of this number stands for.
pub fn collected(alloc: Global, tables: &Tables<'_>, number: u32) -> Result<Indexes, Memory>
    ensures { IfOk result
        (λ l. l ≡ collected_meant (sources_of tables.now) (slice_get tables.now.collectors.now number)) }
{
    match tables.collectors.get(number as usize) {
        Some(collector) => taken(alloc, tables, collector),
        None => Ok(Indexes::new(alloc)),
    }
}
