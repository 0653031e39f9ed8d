//! What a title of a body puts into the book.
ghost use Rattle.std.specs.Prelude.{◌≡◌, ◌<◌, length, IfOk, IsTrue};
ghost use Rattle.eval_resources.specs.Declaring as spec;
ghost use Rattle.eval_world.specs.Outcomes.{Gives, same};
ghost use Rattle.eval_world.specs.Worlds.{put};
ghost use Rattle.res_book.specs.Rows.{is_contained};

use crate::attributes::attributes;
use crate::named::Named;
use eval_classes::{given_tags, tags_within};
use eval_world::{Here, Owner, World};
use pp_values::{Kind, Memory, Stop, Text};
use res_book::{Book, Mode};
use res_core::{Attributes, Body, Declared, Form, Resource};
use std::alloc::Global;

/// Declares the resource. The answer is its number.
#[tactic(auto, unfolding(crate::specs::Declaring::declare_rule), using(crate::proofs::Containers::contained))]
pub fn declare(
    world: &mut World<'_>,
    form: Form,
    named: Named,
    body: &Body,
    here: Here,
) -> Result<u32, Stop>
    ensures number { Gives same (spec.declare_rule form named body.now here world.old) result world.new }
    ensures within { IfOk result (λ n. n < length world.new.book) }
{
    let owner = world.owners.get(here.owner);
    let item = item_of(world.heap.alloc(), owner, &world.book, named, body)?;
    put_item(world, item, mode_of(form))
}

#[tactic(auto, using(crate::proofs::Containers::numbered))]
fn put_item(world: &mut World<'_>, item: Declared, mode: Mode) -> Result<u32, Stop>
    requires { IsTrue (is_contained item.container world.old.book) }
    ensures number { Gives same (put item mode world.old) result world.new }
    ensures within { IfOk result (λ n. n < length world.new.book) }
{
    let alloc = world.heap.alloc();
    world.book.declare(alloc, item, mode)
}

fn mode_of(form: Form) -> Mode
    ensures { result ≡ spec.mode_of form }
{
    match form {
        Form::Plain => Mode::Plain,
        Form::Virtual => Mode::Virtual,
        Form::Exported => Mode::Exported,
    }
}

fn item_of(
    alloc: Global,
    owner: &Owner,
    book: &Book,
    named: Named,
    body: &Body,
) -> Result<Declared, Memory>
    ensures { IfOk result (λ d. d ≡ spec.item_of owner.now book.now named body.now) }
{
    let container = container_in(book, owner.resource);
    let set = attributes(alloc, body.lines.as_slice())?;
    let class = owner.source.copy(alloc)?;
    let at = body.at.copy(alloc)?;
    let Named { kind, title, known } = named;
    let item = resource_of(alloc, book, container, kind, title, set)?;
    Ok(Declared {
        item,
        at,
        scope: owner.scope,
        container,
        class,
        known,
    })
}

/// The resource of the owner, as far as it is a live declaration.
#[tactic(auto, using(crate::proofs::Containers::none_there))]
pub fn container_in(book: &Book, resource: u32) -> Option<u32>
    ensures { result ≡ spec.container_in book.now resource }
{
    if resource < book.count() && book.live(resource) {
        Some(resource)
    } else {
        None
    }
}

fn resource_of(
    alloc: Global,
    book: &Book,
    container: Option<u32>,
    kind: Kind,
    title: Text,
    set: Attributes,
) -> Result<Resource, Memory>
    ensures { IfOk result (λ r. r ≡ spec.resource_by book.now container kind title set) }
{
    let given = given_tags(alloc, &set)?;
    let tags = tags_within(alloc, book, container, kind.as_text(), &title, &given)?;
    Ok(Resource {
        kind,
        title,
        attributes: set,
        tags,
    })
}
