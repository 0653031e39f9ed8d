ghost use Rattle.std.specs.Prelude.{◌≡◌, ◌<◌, ◌^◌, IfOk, length, map};
ghost use Rattle.pp_values.specs.Answers.{Answers};
ghost use Rattle.catalog_finish.specs.Finishing.{finished, put_together as together_meant, catalog_with};
ghost use Rattle.res_core.specs.Catalogs.{IsCatalog};
ghost use Rattle.rel_graph.specs.CatalogPairs.{containment};
ghost use Rattle.rel_graph.specs.Graphs.{edge_pair};
ghost use Rattle.rel_graph.specs.Pairs.{AllBelow};

use crate::checks::{check_lines, check_realized};
use crate::containment::check_order;
use crate::exporting::exports;
use crate::layout::Layout;
use crate::naming::check_names;
use crate::relating::related_pairs;
use crate::resources::resources;
use crate::tables::Tables;
use override_rules::Overrides;
use pp_values::{Memory, Stop, Text};
use res_book::{Book, Relations};
use res_core::{Catalog, EdgeList, ExportSet, HeldList, LogLines};
use std::alloc::Global;

/// The node's catalog and what it exports, or the first fault.
///
/// The catalog's log is empty: whoever has the compile's log puts it there. A number that is no declaration contains
/// nothing, and nothing contains it; a class or an instance whose parameters were not kept has none.
pub fn finish(
    alloc: Global,
    book: Book,
    lines: Overrides,
    relations: Relations,
    node: &Text,
) -> Result<(Catalog, ExportSet), Stop>
    ensures { Answers result (finished lines book relations node.now) }
{
    check_lines(alloc, &book, &lines)?;
    check_realized(alloc, &book, relations.collectors())?;
    let layout = Layout::new(alloc, &book, relations.containments())?;
    let tables = Tables {
        book: &book,
        lines: &lines,
        layout: &layout,
        collectors: relations.collectors(),
    };
    let pairs = related_pairs(alloc, &tables, relations.lines())?;
    check_names(alloc, &book, &lines)?;
    let resources = resources(alloc, &book, &lines, &layout)?;
    let edges = pairs.into_edges(alloc, resources.len() as u32)?;
    put_together(alloc, &book, &lines, node, resources, edges)
}

/// The catalog and the exports, where there is an order.
fn put_together(
    alloc: Global,
    book: &Book,
    lines: &Overrides,
    node: &Text,
    resources: HeldList,
    edges: EdgeList,
) -> Result<(Catalog, ExportSet), Stop>
    requires few { length resources < 2 ^ 32 }
    requires below { AllBelow (containment resources) (length resources) }
    requires edges_below { AllBelow (map edge_pair edges) (length resources) }
    requires kept { IsCatalog resources edges }
    ensures { Answers result (together_meant lines.now book.now node.now resources edges) }
{
    check_order(alloc, book, resources.as_slice(), &edges)?;
    let items = exports(alloc, book, lines)?;
    let catalog = catalog(alloc, node, resources, edges)?;
    Ok((catalog, ExportSet { items }))
}

fn catalog(
    alloc: Global,
    node: &Text,
    resources: HeldList,
    edges: EdgeList,
) -> Result<Catalog, Memory>
    requires { IsCatalog resources edges }
    ensures { IfOk result (λ c. c ≡ catalog_with node.now resources edges) }
{
    let node = node.copy(alloc)?;
    Ok(Catalog::new(node, resources, edges, LogLines::new(alloc)))
}
