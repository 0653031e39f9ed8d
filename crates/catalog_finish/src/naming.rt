//! Whether two resources of a kind are called the same.
ghost use Rattle.std.specs.Prelude.{◌≡◌, Some, IfOk, codes, find, option_map, slice_get};
ghost use Rattle.pp_values.specs.Answers.{Answers};
ghost use Rattle.pp_values.specs.Faults.{fault};
ghost use Rattle.pp_values.specs.Views.{view};
ghost use Rattle.pp_values.specs.declared.fault.What.TheVariants.{SameNamevar};
ghost use Rattle.res_core.specs.AttributeViews.{set_in};
ghost use Rattle.res_core.specs.NativeTypes.{native_of, row as native_row};
ghost use Rattle.res_book.specs.Rows.{is_live as live_meant};
ghost use Rattle.override_rules.specs.Names.{attributes_of};
ghost use Rattle.catalog_finish.specs.Naming.{called, called_by as called_meant, same_name as same_meant};
ghost use Rattle.catalog_finish.specs.Naming.{is_told_apart as apart_meant, or_title, or_undef};
ghost use Rattle.catalog_finish.specs.Naming.{provider_of as provider_meant, native_called as native_meant};
ghost use Rattle.catalog_finish.specs.Naming.{reference_in, name_told as told_meant, with_name as with_meant};
ghost use Rattle.catalog_finish.specs.Naming.{name_step as step_meant, names_of_all as all_meant, names_checked};

use crate::attributes::set_attribute;
use crate::named::Named;
use crate::names::{Names, key_of, with_one_more};
use crate::titles::are_by_title;
use override_rules::Overrides;
use pp_values::{Fault, Memory, Place, Reference, Stop, Text, Value, What};
use res_book::{Book, Row};
use res_core::{NativeType, namevar, native};
use std::alloc::Global;

fn reference_of(alloc: Global, named: &Named) -> Result<Reference, Memory>
    ensures { IfOk result (λ r. r ≡ reference_in (called named.now)) }
{
    let kind = named.kind.copy(alloc)?;
    let title = named.title.copy(alloc)?;
    Ok(Reference { kind, title })
}

fn same_namevar(alloc: Global, at: &Place, later: &Named, earlier: &Named) -> Result<Fault, Memory>
    ensures { IfOk result (λ f. f
        ≡ fault at.now (SameNamevar (reference_in (called later.now)) (reference_in (called earlier.now)))) }
{
    let at = at.copy(alloc)?;
    let later = reference_of(alloc, later)?;
    let earlier = reference_of(alloc, earlier)?;
    Fault::new(alloc, at, What::SameNamevar { later, earlier })
}

/// Whether no two resources of this type may be called the same.
pub fn is_told_apart(native: NativeType) -> bool
    ensures { result ≡ apart_meant native }
{
    !matches!(native, NativeType::Exec | NativeType::Notify)
}

fn name_of(
    alloc: Global,
    book: &Book,
    lines: &Overrides,
    number: u32,
    row: &Row,
    native: NativeType,
) -> Result<Value, Memory>
    requires { slice_get book.now number ≡ Some row.now }
    ensures { IfOk result (λ v. view v
        ≡ or_title (set_in (attributes_of lines.now row.now) (native_row native).namevar) row.now.declared.item.title) }
{
    let name = Text::from_str(alloc, namevar(native))?;
    match set_attribute(alloc, book, lines, number, row, &name)? {
        Some(value) => Ok(value),
        None => Ok(Value::Text(row.declared.item.title.copy(alloc)?)),
    }
}

fn set_provider(
    alloc: Global,
    book: &Book,
    lines: &Overrides,
    number: u32,
    row: &Row,
) -> Result<Value, Memory>
    requires { slice_get book.now number ≡ Some row.now }
    ensures { IfOk result (λ v. view v ≡ or_undef (set_in (attributes_of lines.now row.now) (codes "provider"))) }
{
    let name = Text::from_str(alloc, "provider")?;
    match set_attribute(alloc, book, lines, number, row, &name)? {
        Some(value) => Ok(value),
        None => Ok(Value::Undef),
    }
}

fn provider_of(
    alloc: Global,
    book: &Book,
    lines: &Overrides,
    number: u32,
    row: &Row,
    native: NativeType,
) -> Result<Value, Memory>
    requires { slice_get book.now number ≡ Some row.now }
    ensures { IfOk result (λ v. view v ≡ provider_meant native (attributes_of lines.now row.now)) }
{
    match native {
        NativeType::Package => set_provider(alloc, book, lines, number, row),
        _ => Ok(Value::Undef),
    }
}

fn called_by(
    alloc: Global,
    book: &Book,
    lines: &Overrides,
    number: u32,
    row: &Row,
    native: NativeType,
) -> Result<Named, Memory>
    requires { slice_get book.now number ≡ Some row.now }
    ensures { IfOk result (λ n. called n ≡ called_meant native row.now.declared (attributes_of lines.now row.now)) }
{
    let kind = row.declared.item.kind.copy(alloc)?;
    let title = row.declared.item.title.copy(alloc)?;
    let name = name_of(alloc, book, lines, number, row, native)?;
    let provider = provider_of(alloc, book, lines, number, row, native)?;
    Ok(Named {
        kind,
        title,
        name,
        provider,
    })
}

fn called_apart(
    alloc: Global,
    book: &Book,
    lines: &Overrides,
    number: u32,
    row: &Row,
    native: NativeType,
) -> Result<Option<Named>, Memory>
    requires { slice_get book.now number ≡ Some row.now }
    ensures { IfOk result (λ o. option_map called o
        ≡ native_meant (Some native) row.now.declared (attributes_of lines.now row.now)) }
{
    if is_told_apart(native) {
        return Ok(Some(called_by(alloc, book, lines, number, row, native)?));
    }
    Ok(None)
}

fn native_called(
    alloc: Global,
    book: &Book,
    lines: &Overrides,
    number: u32,
    row: &Row,
) -> Result<Option<Named>, Memory>
    requires { slice_get book.now number ≡ Some row.now }
    ensures { IfOk result (λ o. option_map called o
        ≡ native_meant (native_of row.now.declared.item.kind) row.now.declared (attributes_of lines.now row.now)) }
{
    match native(row.declared.item.kind.as_text()) {
        Some(found) => called_apart(alloc, book, lines, number, row, found),
        None => Ok(None),
    }
}

fn name_told(alloc: Global, at: &Place, named: Named, names: Names) -> Result<Names, Stop>
    ensures { Answers result (told_meant at.now (called named) names (find (same_meant (called named)) names)) }
{
    let key = key_of(alloc, &named)?;
    match names.earlier(&key, &named) {
        Some(earlier) => {
            let fault = same_namevar(alloc, at, &named, earlier)?;
            Err(Stop::Fault(fault))
        }
        None => Ok(with_one_more(alloc, names, key, named)?),
    }
}

fn with_name(alloc: Global, at: &Place, named: Option<Named>, names: Names) -> Result<Names, Stop>
    ensures { Answers result (with_meant at.now names (option_map called named)) }
{
    match named {
        Some(named) => name_told(alloc, at, named, names),
        None => Ok(names),
    }
}

fn is_live(book: &Book, number: u32, row: &Row) -> bool
    requires { slice_get book.now number ≡ Some row.now }
    ensures { result ≡ live_meant row.now }
{
    book.live(number)
}

/// The names with that of a declaration, where it is live and has one.
fn name_step(
    alloc: Global,
    book: &Book,
    lines: &Overrides,
    number: u32,
    row: &Row,
    names: Names,
) -> Result<Names, Stop>
    requires { slice_get book.now number ≡ Some row.now }
    ensures { Answers result (step_meant lines.now names row.now) }
{
    if !is_live(book, number, row) {
        return Ok(names);
    }
    let named = native_called(alloc, book, lines, number, row)?;
    with_name(alloc, &row.declared.at, named, names)
}

fn names_of_all(alloc: Global, book: &Book, lines: &Overrides) -> Result<Names, Stop>
    ensures { Answers result (all_meant lines.now book.now) }
{
    let mut names = Names::new(alloc);
    for number in 0..book.count() {
        names = name_step(alloc, book, lines, number, book.row(number), names)?;
    }
    Ok(names)
}

/// The fault of the first resource that is called as an earlier one of its kind is. Where all are called by their
/// titles there is none.
#[tactic(auto, using(crate::proofs::TitleLemmas::called_apart))]
pub fn check_names(alloc: Global, book: &Book, lines: &Overrides) -> Result<(), Stop>
    ensures { Answers result (names_checked lines.now book.now) }
{
    if are_by_title(book, lines) {
        book.references_differ();
        return Ok(());
    }
    let _names = names_of_all(alloc, book, lines)?;
    Ok(())
}
