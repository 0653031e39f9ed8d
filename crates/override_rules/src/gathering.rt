//! The names of the attributes that may be set.
ghost use Rattle.std.specs.Prelude.{◌≡◌, ◌++◌, [], length, OnOk, Some, option_to_list, slice_get};
ghost use Rattle.pp_values.specs.Rising.{with_texts};
ghost use Rattle.pp_values.specs.Settings.{setting_names};
ghost use Rattle.res_book.specs.Rows.{reference_of};
ghost use Rattle.override_rules.specs.Lines.{lines_on};
ghost use Rattle.override_rules.specs.Names.{line_names, names_within};
ghost use Rattle.override_rules.specs.Numbers.{lines_at};

use crate::defaults::Defaults;
use crate::lines::Lines;
use crate::scopes::Scopes;
use pp_values::{Kind, Memory, Text};
use res_core::{Attributes, Declared};
use std::alloc::Global;
use std::collections::BTreeSet;

/// Puts the names of attributes into the set.
pub fn put_own(
    alloc: Global,
    attributes: &Attributes,
    names: &mut BTreeSet<Text>,
) -> Result<(), Memory>
    ensures { OnOk result (names.new.keys ≡ with_texts names.old.keys (setting_names attributes.now)) }
{
    let mut left = attributes.as_slice();
    while let [attribute, after @ ..] = left {
        names.insert(attribute.name.copy(alloc)?)?;
        left = after;
    }
    Ok(())
}

/// Puts the names of the lines on the declaration into the set.
pub fn put_overridden(
    alloc: Global,
    lines: &Lines,
    item: &Declared,
    names: &mut BTreeSet<Text>,
) -> Result<(), Memory>
    ensures { OnOk result (names.new.keys
        ≡ with_texts names.old.keys (line_names (lines_on (reference_of item.now) lines.now))) }
{
    let numbers = lines.on(&item.item.kind, &item.item.title);
    put_numbers(alloc, lines, numbers, names)
}

fn put_numbers(
    alloc: Global,
    lines: &Lines,
    numbers: &[usize],
    names: &mut BTreeSet<Text>,
) -> Result<(), Memory>
    ensures { OnOk result (names.new.keys ≡ with_texts names.old.keys (line_names (lines_at lines.now numbers.now))) }
{
    for number in numbers {
        put_number(alloc, lines, *number, names)?;
    }
    Ok(())
}

fn put_number(
    alloc: Global,
    lines: &Lines,
    number: usize,
    names: &mut BTreeSet<Text>,
) -> Result<(), Memory>
    ensures { OnOk result (names.new.keys
        ≡ with_texts names.old.keys (line_names (option_to_list (slice_get lines.now number)))) }
{
    match lines.get(number) {
        Some(line) => {
            names.insert(line.name.copy(alloc)?)?;
            Ok(())
        }
        None => Ok(()),
    }
}

/// Puts the names of the defaults for the kind on the way out from the scope into the set. Where there are none for the
/// kind, the way is not gone.
pub fn put_defaults(
    alloc: Global,
    scopes: &Scopes,
    defaults: &Defaults,
    kind: &Kind,
    scope: u32,
    names: &mut BTreeSet<Text>,
) -> Result<(), Memory>
    ensures { OnOk result (names.new.keys
        ≡ with_texts names.old.keys (names_within (length scopes.now) scopes.now defaults.now kind.now (Some scope))) }
{
    if defaults.has_none(kind) {
        return Ok(());
    }
    put_outward(alloc, scopes, defaults, kind, scope, names)
}

fn put_outward(
    alloc: Global,
    scopes: &Scopes,
    defaults: &Defaults,
    kind: &Kind,
    scope: u32,
    names: &mut BTreeSet<Text>,
) -> Result<(), Memory>
    ensures { OnOk result (names.new.keys
        ≡ with_texts names.old.keys (names_within (length scopes.now) scopes.now defaults.now kind.now (Some scope))) }
{
    let mut wanted = scope;
    let mut left = scopes.len();
    while left > 0 {
        left -= 1;
        match scopes.parent(wanted) {
            None => return Ok(()),
            Some(parent) => {
                defaults.put_names(alloc, kind, wanted, names)?;
                match parent {
                    None => return Ok(()),
                    Some(outer) => wanted = outer,
                }
            }
        }
    }
    Ok(())
}
