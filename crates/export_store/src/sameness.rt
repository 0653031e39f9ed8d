//! Whether two export sets are the same in every part.
ghost use Rattle.std.specs.Prelude.{◌≡◌};
ghost use Rattle.std.specs.Cmp.Lexicographic.{pointwise};
ghost use Rattle.res_core.specs.AttributeViews.{setting, settings};
ghost use Rattle.export_store.specs.Sameness.{same_setting, same_resource, same_place, same_exported, same_set};

use pp_ops::is_same;
use pp_values::Place;
use res_core::{Attribute, ExportSet, Exported, Resource};

pub fn is_same_set(a: &ExportSet, b: &ExportSet) -> bool
    ensures { result ≡ same_set a.now b.now }
{
    are_same(a.items.as_slice(), b.items.as_slice())
}

fn are_same(a: &[Exported], b: &[Exported]) -> bool
    ensures { result ≡ pointwise same_exported a.now b.now }
{
    for (i, exported) in a.iter().enumerate() {
        if i >= b.len() || !is_same_exported(exported, &b[i]) {
            return false;
        }
    }
    a.len() == b.len()
}

fn is_same_exported(a: &Exported, b: &Exported) -> bool
    ensures { result ≡ same_exported a.now b.now }
{
    is_same_place(&a.node_place, &b.node_place)
        && is_same_resource(a.item.as_resource(), b.item.as_resource())
}

fn is_same_place(a: &Place, b: &Place) -> bool
    ensures { result ≡ same_place a.now b.now }
{
    a.file == b.file && a.line == b.line
}

fn is_same_resource(a: &Resource, b: &Resource) -> bool
    ensures { result ≡ same_resource a.now b.now }
{
    a.kind == b.kind
        && a.title == b.title
        && have_same(a.attributes.as_slice(), b.attributes.as_slice())
        && a.tags.as_slice() == b.tags.as_slice()
}

fn have_same(a: &[Attribute], b: &[Attribute]) -> bool
    ensures { result ≡ pointwise same_setting (settings a.now) (settings b.now) }
{
    for (i, attribute) in a.iter().enumerate() {
        if i >= b.len() || !is_same_attribute(attribute, &b[i]) {
            return false;
        }
    }
    a.len() == b.len()
}

fn is_same_attribute(a: &Attribute, b: &Attribute) -> bool
    ensures { result ≡ same_setting (setting a.now) (setting b.now) }
{
    a.name == b.name && is_same(&a.value, &b.value)
}
