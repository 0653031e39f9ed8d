//! The attributes of resources in the catalog, and of those that are exported.
ghost use Rattle.std.specs.Prelude.{◌≡◌, ◌<◌, ◌∷◌, [], ◌++◌, ◌||◌, filter, length, not, option_map, Some, IfOk, IsTrue};
ghost use Rattle.std.specs.Prelude.{OnOk, slice_get, unwrap_or};
ghost use Rattle.std.specs.List.{list_all};
ghost use Rattle.pp_values.specs.Views.{view};
ghost use Rattle.res_core.specs.AttributeViews.{set_in, setting, settings};
ghost use Rattle.res_core.specs.Metaparameters.{is_relation_name};
ghost use Rattle.res_core.specs.PlainAttributes.{are_plain};
ghost use Rattle.override_rules.specs.Names.{attributes_of};
ghost use Rattle.catalog_finish.specs.Attributes.{bound_parameters, catalog_attributes as catalog_meant};
ghost use Rattle.catalog_finish.specs.Attributes.{exported_attributes as exported_meant, has_value, in_catalog};
ghost use Rattle.catalog_finish.specs.Attributes.{is_native as native_meant, is_tag as tag_meant, stays as stays_meant};

use crate::plain_values::{plain_copy, plain_value};
use override_rules::{Overrides, is_value};
use pp_values::{Memory, Text, Value, is_plain_value};
use res_book::{Book, Row};
use res_core::{Attribute, Attributes, Declared, is_relation_name, native};
use std::alloc::Global;

fn is_tag(name: &Text) -> bool
    ensures { result ≡ tag_meant name.now }
{
    name.is("tag")
}

/// Whether an attribute of this name has no place in a catalog.
fn is_taken_out(name: &Text) -> bool
    ensures { result ≡ (is_relation_name name.now || tag_meant name.now) }
{
    is_relation_name(name) || is_tag(name)
}

fn is_native(item: &Declared) -> bool
    ensures { result ≡ native_meant item.now }
{
    native(item.item.kind.as_text()).is_some()
}

/// What the declaration, the lines on it and the defaults set for one name.
pub fn set_attribute(
    alloc: Global,
    book: &Book,
    lines: &Overrides,
    number: u32,
    row: &Row,
    name: &Text,
) -> Result<Option<Value>, Memory>
    requires { slice_get book.now number ≡ Some row.now }
    ensures { IfOk result (λ o. option_map view o ≡ set_in (attributes_of lines.now row.now) name.now) }
{
    lines.attribute(alloc, book, number, name)
}

/// All that the declaration, the lines on it and the defaults set.
fn set_attributes(
    alloc: Global,
    book: &Book,
    lines: &Overrides,
    number: u32,
    row: &Row,
) -> Result<Attributes, Memory>
    requires { slice_get book.now number ≡ Some row.now }
    ensures { IfOk result (λ a. a ≡ attributes_of lines.now row.now) }
{
    lines.attributes(alloc, book, number)
}

/// Puts an attribute behind the others, where a catalog has it.
fn put_set(alloc: Global, attribute: Attribute, items: &mut Vec<Attribute>) -> Result<(), Memory>
    ensures { OnOk result (settings items.new.items
        ≡ settings items.old.items ++ in_catalog (setting attribute ∷ [])) }
{
    if is_taken_out(&attribute.name) {
        return Ok(());
    }
    let Attribute { name, value } = attribute;
    let value = plain_value(alloc, value)?;
    items.push(Attribute { name, value })?;
    Ok(())
}

/// Whether a catalog has an attribute as it is.
fn stays(attribute: &Attribute) -> bool
    ensures { result ≡ stays_meant (setting attribute.now) }
{
    !is_taken_out(&attribute.name) && is_plain_value(&attribute.value)
}

fn all_stay(attributes: &[Attribute]) -> bool
    ensures { result ≡ list_all stays_meant (settings attributes.now) }
{
    let mut left = attributes;
    while let [attribute, after @ ..] = left {
        if !stays(attribute) {
            return false;
        }
        left = after;
    }
    true
}

/// What a catalog has of these attributes. Mostly it has them all as they are.
#[tactic(auto, using(crate::proofs::AttributeLemmas::all_stay))]
fn kept_of_set(alloc: Global, attributes: Attributes) -> Result<Attributes, Memory>
    ensures { IfOk result (λ a. a ≡ in_catalog attributes) }
{
    if all_stay(attributes.as_slice()) {
        return Ok(attributes);
    }
    let mut items = Vec::with_capacity(alloc, attributes.len())?;
    for attribute in attributes.into_vec() {
        put_set(alloc, attribute, &mut items)?;
    }
    Ok(Attributes::from_vec(items))
}

/// Puts a parameter behind the others, where it has a value and a catalog has it.
fn put_bound(alloc: Global, attribute: &Attribute, items: &mut Vec<Attribute>) -> Result<(), Memory>
    ensures { OnOk result (settings items.new.items
        ≡ settings items.old.items ++ in_catalog (filter has_value (setting attribute.now ∷ []))) }
{
    if !is_value(&attribute.value) || is_taken_out(&attribute.name) {
        return Ok(());
    }
    let name = attribute.name.copy(alloc)?;
    let value = plain_copy(alloc, &attribute.value)?;
    items.push(Attribute { name, value })?;
    Ok(())
}

/// What a catalog has of these parameters.
fn kept_of_bound(alloc: Global, attributes: &Attributes) -> Result<Attributes, Memory>
    ensures { IfOk result (λ a. a ≡ in_catalog (filter has_value attributes.now)) }
{
    let mut items = Vec::with_capacity(alloc, attributes.len())?;
    for attribute in attributes.as_slice() {
        put_bound(alloc, attribute, &mut items)?;
    }
    Ok(Attributes::from_vec(items))
}

fn bound_in_catalog(alloc: Global, row: &Row) -> Result<Attributes, Memory>
    ensures { IfOk result (λ a. a ≡ in_catalog (bound_parameters row.now)) }
{
    match &row.bound {
        Some(attributes) => kept_of_bound(alloc, attributes),
        None => Ok(Attributes::new(alloc)),
    }
}

/// The attributes of a declaration in the catalog.
pub fn catalog_attributes(
    alloc: Global,
    book: &Book,
    lines: &Overrides,
    number: u32,
    row: &Row,
) -> Result<Attributes, Memory>
    requires { slice_get book.now number ≡ Some row.now }
    ensures { IfOk result (λ a. a ≡ catalog_meant lines.now row.now) }
{
    if is_native(&row.declared) {
        let attributes = set_attributes(alloc, book, lines, number, row)?;
        return kept_of_set(alloc, attributes);
    }
    bound_in_catalog(alloc, row)
}

fn without_tag(attributes: Attributes) -> Attributes
    ensures { result ≡ filter (λ a. not (tag_meant a.0)) attributes }
{
    let mut items = attributes.into_vec();
    items.retain(|a| !is_tag(&a.name));
    Attributes::from_vec(items)
}

/// The attributes of a declaration in the node's exports.
pub fn exported_attributes(
    alloc: Global,
    book: &Book,
    lines: &Overrides,
    number: u32,
    row: &Row,
) -> Result<Attributes, Memory>
    requires { slice_get book.now number ≡ Some row.now }
    ensures { IfOk result (λ a. a ≡ exported_meant lines.now row.now) }
{
    let attributes = set_attributes(alloc, book, lines, number, row)?;
    Ok(without_tag(attributes))
}
