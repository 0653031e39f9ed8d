//! What a node exports.
ghost use Rattle.std.specs.Prelude.{◌≡◌, [], Some, IfOk, find, not, option_copied, option_map, slice_get, IsTrue};
ghost use Rattle.pp_values.specs.Answers.{Answers};
ghost use Rattle.pp_values.specs.Plain.{is_plain_value};
ghost use Rattle.res_core.specs.PlainAttributes.{are_plain};
ghost use Rattle.res_core.specs.AttributeViews.{setting, settings};
ghost use Rattle.catalog_finish.specs.Exporting.{is_exported as exported_meant, exported_resource as resource_meant};
ghost use Rattle.catalog_finish.specs.Exporting.{export_of as export_meant, exports as exports_meant, export_with};

use crate::attributes::exported_attributes;
use crate::resources::resource_with;
use crate::targets::mismatch;
use override_rules::Overrides;
use pp_values::{Memory, Stop, is_plain_value};
use res_book::{Book, Mode, Row};
use res_core::{Attribute, Attributes, Exported, Exports, PlainResource};
use std::alloc::Global;

/// Whether it was declared as exported.
pub fn is_exported(mode: &Mode) -> bool
    ensures { result ≡ exported_meant mode.now }
{
    match mode {
        Mode::Exported => true,
        Mode::Plain | Mode::Virtual => false,
        Mode::Imported { node: _, place: _ } => false,
    }
}

/// The first attribute with a data type or `default` within.
fn first_not_plain(attributes: &[Attribute]) -> Option<&Attribute>
    ensures { option_map (λ a. setting a.now) result ≡ find (λ a. not (is_plain_value a.1)) (settings attributes.now) }
{
    let mut left = attributes;
    while let [attribute, after @ ..] = left {
        if !is_plain_value(&attribute.value) {
            return Some(attribute);
        }
        left = after;
    }
    None
}

/// The export of a declaration that is set to these attributes.
fn exported_resource(alloc: Global, row: &Row, attributes: Attributes) -> Result<Exported, Stop>
    ensures { Answers result (resource_meant row.now attributes) }
{
    match first_not_plain(attributes.as_slice()) {
        Some(attribute) => {
            let fault = mismatch(alloc, &row.declared.at, &attribute.name)?;
            Err(Stop::Fault(fault))
        }
        None => Ok(plain_export(alloc, row, attributes)?),
    }
}

fn plain_export(alloc: Global, row: &Row, attributes: Attributes) -> Result<Exported, Memory>
    requires { IsTrue (are_plain attributes) }
    ensures { IfOk result (λ e. e ≡ export_with row.now attributes) }
{
    let node_place = row.declared.at.copy(alloc)?;
    let resource = resource_with(alloc, &row.declared, attributes)?;
    Ok(Exported {
        node_place,
        item: PlainResource::new(resource),
    })
}

/// The export of a declaration, where it is exported.
fn export_of(
    alloc: Global,
    book: &Book,
    lines: &Overrides,
    number: u32,
    row: &Row,
) -> Result<Option<Exported>, Stop>
    requires { slice_get book.now number ≡ Some row.now }
    ensures { Answers result (export_meant lines.now row.now) }
{
    if !is_exported(&row.mode) {
        return Ok(None);
    }
    let attributes = exported_attributes(alloc, book, lines, number, row)?;
    Ok(Some(exported_resource(alloc, row, attributes)?))
}

/// All exported declarations, live or not.
pub fn exports(alloc: Global, book: &Book, lines: &Overrides) -> Result<Exports, Stop>
    ensures { Answers result (exports_meant lines.now book.now) }
{
    let mut exports = Vec::new(alloc);
    for number in 0..book.count() {
        match export_of(alloc, book, lines, number, book.row(number))? {
            Some(export) => exports.push(export)?,
            None => {}
        }
    }
    Ok(Exports::from_vec(exports))
}
