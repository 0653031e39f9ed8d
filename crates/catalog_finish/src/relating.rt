//! Which resources come before which, by relation lines and by metaparameters.
ghost use Rattle.std.specs.Prelude.{◌≡◌, ◌==◌, ◌||◌, false, not, Some, OnOk, slice_get};
ghost use Rattle.std.specs.List.{list_any};
ghost use Rattle.pp_values.specs.Answers.{Answers};
ghost use Rattle.res_core.specs.AttributeViews.{set_in};
ghost use Rattle.res_core.specs.Metaparameters.{is_relation_name};
ghost use Rattle.override_rules.specs.Meaning.{touched_by};
ghost use Rattle.override_rules.specs.Names.{attributes_of};
ghost use Rattle.catalog_finish.specs.RelationParameters.{joined_by, name_of, goes_before, does_signal, does_relate};
ghost use Rattle.catalog_finish.specs.Relating.{operand_of as operand_meant, side_of as side_meant};
ghost use Rattle.catalog_finish.specs.Relating.{ends_of as ends_meant, lines_related as lines_meant};
ghost use Rattle.catalog_finish.specs.Relating.{set_targets as set_meant, metaparameter_step, row_related as row_meant};
ghost use Rattle.catalog_finish.specs.Relating.{row_step, rows_related as rows_meant, related_pairs as pairs_meant};
ghost use Rattle.catalog_finish.specs.Sources.{sources_of};

use crate::attributes::set_attribute;
use crate::collecting::collected;
use crate::edge_table::EdgeTable;
use crate::tables::Tables;
use crate::targets::{target, targets};
use override_rules::Overrides;
use pp_values::{Memory, Place, Stop, Text};
use res_book::{RelationLine, Row};
use res_core::{Attribute, Indexes, Operand, is_relation_name};
use std::alloc::Global;

/// The resources on the two sides of a relation.
#[derive(Drop)]
pub struct Ends {
    pub left: Indexes,
    pub right: Indexes,
}

/// A metaparameter that relates its resource to others.
#[derive(Clone, Copy)]
pub enum Metaparameter {
    Before,
    Require,
    Notify,
    Subscribe,
}

impl Metaparameter {
    fn name(self) -> &'static str
        ensures { result.now ≡ name_of self }
    {
        match self {
            Metaparameter::Before => "before",
            Metaparameter::Require => "require",
            Metaparameter::Notify => "notify",
            Metaparameter::Subscribe => "subscribe",
        }
    }

    /// Whether its resource comes before the others.
    fn goes_before(self) -> bool
        ensures { result ≡ goes_before self }
    {
        match self {
            Metaparameter::Before | Metaparameter::Notify => true,
            Metaparameter::Require | Metaparameter::Subscribe => false,
        }
    }

    /// Whether what comes later is refreshed where what comes first has changed.
    fn does_signal(self) -> bool
        ensures { result ≡ does_signal self }
    {
        match self {
            Metaparameter::Notify | Metaparameter::Subscribe => true,
            Metaparameter::Before | Metaparameter::Require => false,
        }
    }
}

fn operand_of(
    alloc: Global,
    tables: &Tables<'_>,
    at: &Place,
    operand: &Operand,
) -> Result<Indexes, Stop>
    ensures { Answers result (operand_meant (sources_of tables.now) at.now operand.now) }
{
    match operand {
        Operand::One(reference) => {
            let index = target(alloc, tables, at, reference)?;
            let mut found = Indexes::new(alloc);
            found.push(index)?;
            Ok(found)
        }
        Operand::All(number) => Ok(collected(alloc, tables, *number)?),
    }
}

fn side_of(
    alloc: Global,
    tables: &Tables<'_>,
    at: &Place,
    operands: &[Operand],
) -> Result<Indexes, Stop>
    ensures { Answers result (side_meant (sources_of tables.now) at.now operands.now) }
{
    let mut found = Indexes::new(alloc);
    for operand in operands {
        let more = operand_of(alloc, tables, at, operand)?;
        found.append(more)?;
    }
    Ok(found)
}

fn ends_of(alloc: Global, tables: &Tables<'_>, line: &RelationLine) -> Result<Ends, Stop>
    ensures { Answers result (ends_meant (sources_of tables.now) line.now) }
{
    let left = side_of(alloc, tables, &line.at, line.left.as_slice())?;
    let right = side_of(alloc, tables, &line.at, line.right.as_slice())?;
    Ok(Ends { left, right })
}

fn lines_related(
    alloc: Global,
    tables: &Tables<'_>,
    lines: &[RelationLine],
) -> Result<EdgeTable, Stop>
    ensures { Answers result (lines_meant (sources_of tables.now) lines.now) }
{
    let mut edges = EdgeTable::new(alloc);
    for line in lines {
        let ends = ends_of(alloc, tables, line)?;
        edges.join(ends.left.as_slice(), ends.right.as_slice(), line.signal)?;
    }
    Ok(edges)
}

/// A live resource, by its declaration and its index.
#[derive(Clone, Copy)]
struct Subject<'a> {
    number: u32,
    row: &'a Row,
    index: u32,
}

/// What the attribute of this name says that its resource is related to.
fn set_targets(
    alloc: Global,
    tables: &Tables<'_>,
    subject: &Subject<'_>,
    name: &Text,
) -> Result<Indexes, Stop>
    requires { slice_get tables.now.book.now subject.now.number ≡ Some subject.now.row.now }
    ensures { Answers result (set_meant (sources_of tables.now) subject.now.row.now.declared.at name.now
        (set_in (attributes_of tables.now.lines.now subject.now.row.now) name.now)) }
{
    let Subject {
        number,
        row,
        index: _,
    } = *subject;
    match set_attribute(alloc, tables.book, tables.lines, number, row, name)? {
        Some(value) => {
            let found = Indexes::new(alloc);
            targets(alloc, tables, &row.declared.at, name, &value, found)
        }
        None => Ok(Indexes::new(alloc)),
    }
}

fn join(edges: &mut EdgeTable, by: Metaparameter, index: u32, others: &[u32]) -> Result<(), Memory>
    ensures { OnOk result (edges.new ≡ joined_by by index others.now edges.old) }
{
    if by.goes_before() {
        return edges.join(&[index], others, by.does_signal());
    }
    edges.join(others, &[index], by.does_signal())
}

fn related_by(
    alloc: Global,
    tables: &Tables<'_>,
    subject: &Subject<'_>,
    by: Metaparameter,
    edges: EdgeTable,
) -> Result<EdgeTable, Stop>
    requires { slice_get tables.now.book.now subject.now.number ≡ Some subject.now.row.now }
    ensures { Answers result
        (metaparameter_step (sources_of tables.now) subject.now.row.now.declared.at subject.now.index
        (attributes_of tables.now.lines.now subject.now.row.now) by edges) }
{
    let name = Text::from_str(alloc, by.name())?;
    let others = set_targets(alloc, tables, subject, &name)?;
    let mut edges = edges;
    join(&mut edges, by, subject.index, others.as_slice())?;
    Ok(edges)
}

fn has_relation(attributes: &[Attribute]) -> bool
    ensures { result ≡ list_any (λ a. is_relation_name a.name) attributes.now }
{
    attributes.iter().any(|a| is_relation_name(&a.name))
}

/// Whether a declaration may have a metaparameter that relates it to others. Most have none, and are asked for none.
fn may_relate(lines: &Overrides, row: &Row) -> bool
    ensures exact { result
        ≡ (not (touched_by lines.now row.now == 0) || does_relate row.now.declared.item.attributes) }
    ensures holds { result ≡ false → does_relate (attributes_of lines.now row.now) ≡ false }
{
    if lines.is_untouched(row) {
        return has_relation(row.declared.item.attributes.as_slice());
    }
    true
}

fn row_related(
    alloc: Global,
    tables: &Tables<'_>,
    number: u32,
    index: u32,
    row: &Row,
    edges: EdgeTable,
) -> Result<EdgeTable, Stop>
    requires { slice_get tables.now.book.now number ≡ Some row.now }
    ensures { Answers result (row_meant (sources_of tables.now) index row.now edges) }
{
    if !may_relate(tables.lines, row) {
        return Ok(edges);
    }
    let subject = Subject { number, row, index };
    let edges = related_by(alloc, tables, &subject, Metaparameter::Before, edges)?;
    let edges = related_by(alloc, tables, &subject, Metaparameter::Require, edges)?;
    let edges = related_by(alloc, tables, &subject, Metaparameter::Notify, edges)?;
    related_by(alloc, tables, &subject, Metaparameter::Subscribe, edges)
}

fn row_at_index(
    alloc: Global,
    tables: &Tables<'_>,
    number: u32,
    row: &Row,
    edges: EdgeTable,
) -> Result<EdgeTable, Stop>
    requires { slice_get tables.now.book.now number ≡ Some row.now }
    ensures { Answers result (row_step (sources_of tables.now) edges (number, row.now)) }
{
    match tables.layout.index(number) {
        Some(index) => row_related(alloc, tables, number, index, row, edges),
        None => Ok(edges),
    }
}

/// Which resources come before which: by these lines first, and then by the metaparameters of each live resource.
pub fn related_pairs(
    alloc: Global,
    tables: &Tables<'_>,
    lines: &[RelationLine],
) -> Result<EdgeTable, Stop>
    ensures { Answers result (pairs_meant (sources_of tables.now) lines.now) }
{
    let edges = lines_related(alloc, tables, lines)?;
    rows_related(alloc, tables, edges)
}

fn rows_related(alloc: Global, tables: &Tables<'_>, edges: EdgeTable) -> Result<EdgeTable, Stop>
    ensures { Answers result (rows_meant (sources_of tables.now) edges) }
{
    let mut edges = edges;
    for number in 0..tables.book.count() {
        edges = row_at_index(alloc, tables, number, tables.book.row(number), edges)?;
    }
    Ok(edges)
}
