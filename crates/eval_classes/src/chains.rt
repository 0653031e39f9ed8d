//! Which classes are declared together.
ghost use Rattle.std.specs.Prelude.{◌≡◌, [], IfOk, unwrap_or};
ghost use Rattle.std.specs.Option.{option_copied};
ghost use Rattle.eval_classes.specs.Definitions.{class_name as named, longest_way};
ghost use Rattle.eval_classes.specs.Listing as spec;
ghost use Rattle.eval_classes.specs.Stacks.{chain_seen};

use crate::chain::Chain;
use crate::declaring::is_declared;
use crate::definitions::find;
use crate::names::class_name;
use crate::parents::{class_in, parent_of};
use eval_world::Environment;
use pp_tree::Class;
use pp_values::{Memory, Text};
use res_book::Book;
use std::alloc::Global;

/// A class, and its parents up to the last one, or to one that is declared already.
#[tactic(auto, using(crate::proofs::Links::begins, crate::proofs::Links::no_further))]
pub fn chain_of<'a>(
    alloc: Global,
    environment: &Environment<'a>,
    book: &Book,
    class: &'a Class,
) -> Result<Chain<'a>, Memory>
    ensures { IfOk result (λ c. chain_seen c ≡ spec.chain_from (longest_way environment.now) [] (named class.now) class.now
        environment.now book.now) }
{
    let mut before = Vec::new(alloc);
    let mut last = class;
    let mut name = class_name(alloc, class)?;
    for _turn in 0..u64::MAX {
        let parent = parent_of(alloc, environment, &name, last)?;
        let Some(next) = next_class(alloc, environment, book, &parent)? else {
            return Ok(Chain {
                last,
                before,
                parent,
            });
        };
        before.push(last)?;
        last = next;
        name = or_name(parent, name);
    }
    // No memory holds so many classes.
    Err(Memory)
}

/// The name of the parent, which is there where its class is.
fn or_name(parent: Option<Text>, name: Text) -> Text
    ensures { result ≡ unwrap_or parent name }
{
    match parent {
        Some(parent) => parent,
        None => name,
    }
}

/// The class of this name, where the site has one that is not declared yet.
fn next_class<'a>(
    alloc: Global,
    environment: &Environment<'a>,
    book: &Book,
    name: &Option<Text>,
) -> Result<Option<&'a Class>, Memory>
    ensures { IfOk result (λ o. option_copied o
        ≡ spec.unless_declared book.now (spec.class_at environment.now name.now)) }
{
    let class = class_at(alloc, environment, name)?;
    unless_declared(alloc, book, class)
}

fn class_at<'a>(
    alloc: Global,
    environment: &Environment<'a>,
    name: &Option<Text>,
) -> Result<Option<&'a Class>, Memory>
    ensures { IfOk result (λ o. option_copied o ≡ spec.class_at environment.now name.now) }
{
    match name {
        Some(name) => Ok(class_in(find(alloc, environment, name)?)),
        None => Ok(None),
    }
}

fn unless_declared<'a>(
    alloc: Global,
    book: &Book,
    class: Option<&'a Class>,
) -> Result<Option<&'a Class>, Memory>
    ensures { IfOk result (λ o. option_copied o ≡ spec.unless_declared book.now (option_copied class.entry)) }
{
    match class {
        Some(class) => unless_there(alloc, book, class),
        None => Ok(None),
    }
}

fn unless_there<'a>(
    alloc: Global,
    book: &Book,
    class: &'a Class,
) -> Result<Option<&'a Class>, Memory>
    ensures { IfOk result (λ o. option_copied o ≡ spec.unless_there book.now class.now) }
{
    if is_declared(alloc, book, class)? {
        return Ok(None);
    }
    Ok(Some(class))
}
