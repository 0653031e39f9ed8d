//! The resources of a catalog.
ghost use Rattle.std.specs.Prelude.{◌≡◌, ◌∷◌, [], Some, IfOk, IsTrue, slice_get};
ghost use Rattle.std.specs.List.{list_all};
ghost use Rattle.catalog_finish.specs.Attributes.{catalog_attributes as catalog_meant};
ghost use Rattle.catalog_finish.specs.Catalogs.{held as held_meant, resource_with as with_meant};
ghost use Rattle.catalog_finish.specs.Catalogs.{resources as resources_meant};
ghost use Rattle.res_core.specs.Catalogs.{has_form};

use crate::attributes::catalog_attributes;
use crate::layout::Layout;
use override_rules::Overrides;
use pp_values::Memory;
use res_book::{Book, Row};
use res_core::{Attributes, Declared, Held, HeldList, PlainResource, Resource};
use std::alloc::Global;

/// The declared resource with these attributes in place of those that it was declared with.
pub fn resource_with(
    alloc: Global,
    item: &Declared,
    attributes: Attributes,
) -> Result<Resource, Memory>
    ensures { IfOk result (λ r. r ≡ with_meant item.now attributes) }
{
    let kind = item.item.kind.copy(alloc)?;
    let title = item.item.title.copy(alloc)?;
    let tags = item.item.tags.copy(alloc)?;
    Ok(Resource {
        kind,
        title,
        attributes,
        tags,
    })
}

fn plain_resource(
    alloc: Global,
    book: &Book,
    lines: &Overrides,
    number: u32,
    row: &Row,
) -> Result<PlainResource, Memory>
    requires { slice_get book.now number ≡ Some row.now }
    ensures { IfOk result (λ r. r ≡ with_meant row.now.declared (catalog_meant lines.now row.now)) }
{
    let attributes = catalog_attributes(alloc, book, lines, number, row)?;
    let resource = resource_with(alloc, &row.declared, attributes)?;
    Ok(PlainResource::new(resource))
}

fn held(
    alloc: Global,
    book: &Book,
    lines: &Overrides,
    layout: &Layout,
    number: u32,
    row: &Row,
) -> Result<Held, Memory>
    requires { slice_get book.now number ≡ Some row.now }
    ensures held { IfOk result (λ h. h ≡ held_meant lines.now layout.now number row.now) }
    ensures form { IfOk result (λ h. IsTrue (has_form h)) }
{
    let inside = layout.inside(alloc, number, row)?;
    let item = plain_resource(alloc, book, lines, number, row)?;
    let _kind = item.as_resource().kind.as_text();
    Ok(Held { item, inside })
}

/// The live declarations as a catalog lists them.
pub fn resources(
    alloc: Global,
    book: &Book,
    lines: &Overrides,
    layout: &Layout,
) -> Result<HeldList, Memory>
    ensures resources { IfOk result (λ l. l ≡ resources_meant lines.now layout.now book.now) }
    ensures forms { IfOk result (λ l. IsTrue (list_all has_form l)) }
{
    let mut items = Vec::with_capacity(alloc, book.count() as usize)?;
    for number in 0..book.count() {
        if book.live(number) {
            items.push(held(alloc, book, lines, layout, number, book.row(number))?)?;
        }
    }
    Ok(HeldList::from_vec(items))
}
