//! The world before any statement is evaluated.
ghost use Rattle.std.specs.Prelude.{◌≡◌, [], ◌∷◌, IfOk, OnOk};
ghost use Rattle.pp_values.specs.Views.{view};
ghost use Rattle.class_eval.specs.TopNames.{with_top_names};
ghost use Rattle.class_eval.specs.Starting as spec;
ghost use Rattle.scope_core.specs.Scopes.{top_alone};

use crate::top_names::put_top_names;
use eval_world::{Environment, MAIN_SOURCE, World};
use pp_values::{Kind, MAIN_MANIFEST, Memory, Place, Text, Texts, Value};
use res_book::{Book, Mode};
use res_core::{Attributes, Declared, KnownNames, Resource, Tags, tags_of};
use scope_core::Scopes;
use std::alloc::Global;

/// Top scope before evaluation, of a node with these facts: the variables that data are looked up with where no
/// manifest asks for them.
pub fn top_scopes(alloc: Global, node: &Text, facts: &Value) -> Result<Scopes, Memory>
    ensures { IfOk result (λ s. s ≡ with_top_names node.now (view facts.now) top_alone) }
{
    let mut scopes = Scopes::new(alloc)?;
    let at = main_place(alloc)?;
    put_top_names(alloc, &mut scopes, node, facts, &at)?;
    Ok(scopes)
}

pub fn start_world<'a>(
    alloc: Global,
    environment: Environment<'a>,
    node: &Text,
    facts: &Value,
) -> Result<World<'a>, Memory>
    ensures { IfOk result (λ w. w ≡ spec.started environment.entry node.now (view facts.now)) }
{
    let mut world = World::new(alloc, environment)?;
    begin(&mut world, node, facts)?;
    Ok(world)
}

fn begin(world: &mut World<'_>, node: &Text, facts: &Value) -> Result<(), Memory>
    requires { world.old.book ≡ [] }
    ensures { OnOk result (world.new ≡ spec.begun node.now (view facts.now) world.old) }
{
    let at = main_place(world.heap.alloc())?;
    put_top_names(world.heap.alloc(), &mut world.scopes, node, facts, &at)?;
    world.overrides.open_scope(0, None)?;
    declare_main(world.heap.alloc(), &mut world.book)
}

fn main_place(alloc: Global) -> Result<Place, Memory>
    ensures { IfOk result (λ p. p ≡ spec.main_class.at) }
{
    Ok(Place {
        file: Text::from_str(alloc, MAIN_MANIFEST)?,
        line: 1,
    })
}

/// Declares `Class[main]`, whose parameters are bound.
fn declare_main(alloc: Global, book: &mut Book) -> Result<(), Memory>
    requires { book.old ≡ [] }
    ensures { OnOk result (book.new ≡ spec.main_row ∷ []) }
{
    let main = main_class(alloc)?;
    // Nothing is declared yet, so only memory can be wanting.
    let Ok(number) = book.declare(alloc, main, Mode::Plain) else {
        return Err(Memory);
    };
    book.set_bound(number, Attributes::new(alloc));
    Ok(())
}

fn main_class(alloc: Global) -> Result<Declared, Memory>
    ensures { IfOk result (λ d. d ≡ spec.main_class) }
{
    Ok(Declared {
        item: main_resource(alloc)?,
        at: main_place(alloc)?,
        scope: 0,
        container: None,
        class: Text::from_str(alloc, MAIN_SOURCE)?,
        known: KnownNames::none(alloc),
    })
}

fn main_resource(alloc: Global) -> Result<Resource, Memory>
    ensures { IfOk result (λ r. r ≡ spec.main_class.item) }
{
    let kind = Kind::from_str(alloc, "class")?;
    let title = Text::from_str(alloc, "main")?;
    let tags = tags_of(
        alloc,
        kind.as_text(),
        &title,
        &Texts::new(alloc),
        &Tags::new(alloc),
    )?;
    Ok(Resource {
        kind,
        title,
        attributes: Attributes::new(alloc),
        tags,
    })
}
