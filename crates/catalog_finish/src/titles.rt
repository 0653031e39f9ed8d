//! Resources that are called by their titles: no two of a kind share one.
ghost use Rattle.std.specs.Prelude.{◌≡◌, true};
ghost use Rattle.std.specs.List.{list_all};
ghost use Rattle.override_rules.specs.Names.{attributes_of};
ghost use Rattle.catalog_finish.specs.Titles.{has_attribute, has_no_name, are_nameless, is_by_title as by_title_meant};
ghost use Rattle.catalog_finish.specs.Titles.{is_surely_by_title, is_unnamed as unnamed_meant};

use crate::naming::is_told_apart;
use override_rules::Overrides;
use res_book::{Book, Row};
use res_core::{Attribute, NativeType, namevar, native};

/// Whether one of the attributes has this name.
fn sets(attributes: &[Attribute], name: &str) -> bool
    ensures { result ≡ has_attribute attributes.now name.now }
{
    attributes.iter().any(|a| a.name.is(name))
}

/// Whether these attributes neither name a resource of this type nor its provider.
fn has_no_name(native: NativeType, attributes: &[Attribute]) -> bool
    ensures { result ≡ are_nameless native attributes.now }
{
    !is_told_apart(native) || !(sets(attributes, namevar(native)) || sets(attributes, "provider"))
}

/// Whether a declaration of this native type has no name but its title, as it tells by itself.
fn is_unnamed(lines: &Overrides, row: &Row, native: NativeType) -> bool
    ensures exact { result ≡ unnamed_meant lines.now row.now native }
    ensures holds { result ≡ true → has_no_name native (attributes_of lines.now row.now) ≡ true }
{
    if lines.is_untouched(row) {
        return has_no_name(native, row.declared.item.attributes.as_slice());
    }
    false
}

/// Whether a declaration has no name but its title, as it tells by itself.
fn is_by_title(lines: &Overrides, row: &Row) -> bool
    ensures exact { result ≡ is_surely_by_title lines.now row.now }
    ensures holds { result ≡ true → by_title_meant lines.now row.now ≡ true }
{
    match native(row.declared.item.kind.as_text()) {
        Some(found) => is_unnamed(lines, row, found),
        None => true,
    }
}

/// Whether no declaration has a name but its title, as each tells by itself.
pub fn are_by_title(book: &Book, lines: &Overrides) -> bool
    ensures exact { result ≡ list_all (is_surely_by_title lines.now) book.now }
    ensures holds { result ≡ true → list_all (by_title_meant lines.now) book.now ≡ true }
{
    for number in 0..book.count() {
        if !is_by_title(lines, book.row(number)) {
            return false;
        }
    }
    true
}
