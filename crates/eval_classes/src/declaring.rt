//! Classes as they stand in the book.
ghost use Rattle.std.specs.Prelude.{◌≡◌, IfOk};
ghost use Rattle.eval_classes.specs.Definitions as definitions;
ghost use Rattle.eval_classes.specs.Listing as spec;
ghost use Rattle.eval_world.specs.Outcomes.{Gives, same};
ghost use Rattle.res_book.specs.Rows as rows;

use crate::names::{class_name, class_reference, param_names};
use crate::tagging::{given_tags, tags_within};
use eval_world::{Owner, World};
use pp_tree::Class;
use pp_values::{Kind, Memory, Place, Stop, Text};
use res_book::{Book, Mode};
use res_core::{Attributes, Declared, KnownNames, Resource, copy_attributes};
use std::alloc::Global;

/// The number of the declaration of the class of this name.
pub fn number_of(alloc: Global, book: &Book, name: &Text) -> Result<Option<u32>, Memory>
    ensures { IfOk result (λ n. n ≡ rows.number_of (spec.class_reference name.now) book.now) }
{
    let reference = class_reference(alloc, name)?;
    Ok(book.find(&reference))
}

/// Whether a class is declared.
pub fn is_declared(alloc: Global, book: &Book, class: &Class) -> Result<bool, Memory>
    ensures { IfOk result (λ b. b ≡ spec.is_declared (definitions.class_name class.now) book.now) }
{
    let name = class_name(alloc, class)?;
    Ok(number_of(alloc, book, &name)?.is_some())
}

/// Declares a class, with what was given for it, where the code of this owner stands.
#[tactic(auto, unfolding(crate::specs::Listing::declare_rule))]
pub fn declare(
    world: &mut World<'_>,
    class: &Class,
    given: &Attributes,
    at: &Place,
    from: u32,
) -> Result<u32, Stop>
    ensures { Gives same (spec.declare_rule class.now given.now at.now from world.old) result world.new }
{
    let owner = world.owners.get(from);
    let item = item_of(world.heap.alloc(), owner, &world.book, class, given, at)?;
    world.book.declare(world.heap.alloc(), item, Mode::Plain)
}

fn item_of(
    alloc: Global,
    owner: &Owner,
    book: &Book,
    class: &Class,
    given: &Attributes,
    at: &Place,
) -> Result<Declared, Memory>
    ensures { IfOk result (λ d. d ≡ spec.class_item owner.now book.now class.now given.now at.now) }
{
    let known = KnownNames::listed(param_names(alloc, class.params.as_slice())?);
    let source = owner.source.copy(alloc)?;
    let at = at.copy(alloc)?;
    Ok(Declared {
        item: resource_of(alloc, owner, book, class, given)?,
        at,
        scope: owner.scope,
        container: None,
        class: source,
        known,
    })
}

/// Its tags are its own, and those of the resource in whose scope it is declared.
fn resource_of(
    alloc: Global,
    owner: &Owner,
    book: &Book,
    class: &Class,
    given: &Attributes,
) -> Result<Resource, Memory>
    ensures { IfOk result (λ r. r ≡ spec.class_resource owner.now book.now class.now given.now) }
{
    let kind = Kind::from_str(alloc, "class")?;
    let title = class_name(alloc, class)?;
    let own = given_tags(alloc, given)?;
    let tags = tags_within(
        alloc,
        book,
        Some(owner.resource),
        kind.as_text(),
        &title,
        &own,
    )?;
    let attributes = copy_attributes(alloc, given)?;
    Ok(Resource {
        kind,
        title,
        attributes,
        tags,
    })
}
