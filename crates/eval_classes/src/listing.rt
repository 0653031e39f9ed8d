//! The classes of a chain, as their scopes are entered and as they are listed.
ghost use Rattle.std.specs.Prelude.{◌≡◌, ◌+◌, [], IfOk};
ghost use Rattle.eval_classes.specs.Definitions.{class_name};
ghost use Rattle.eval_classes.specs.Listing as spec;
ghost use Rattle.eval_classes.specs.Stacks.{chain_of, class_seen, entered_seen, stack_of};
ghost use Rattle.eval_world.specs.Outcomes.{Gives, nothing, same};

use crate::declaring::declare;
use crate::definitions::class_found;
use crate::entered::Entered;
use crate::homes::{file_of, module_of};
use crate::listed::Listed;
use crate::names::{class_name, class_source};
use crate::own_names::set_names;
use eval_world::{Environment, Here, Owner, World};
use pp_tree::Class;
use pp_values::{Memory, Place, Stop, Text};
use res_core::Attributes;
use scope_core::{ScopeId, ScopeKind};
use std::alloc::Global;

/// Enters the scopes of these classes, the last parent's first.
#[tactic(auto, unfolding(crate::specs::Listing::enter_chain))]
pub fn enter_chain<'a>(
    world: &mut World<'a>,
    last: &'a Class,
    before: Vec<&'a Class>,
    parent: &Option<Text>,
) -> Result<Vec<Entered<'a>>, Stop>
    ensures { Gives (λ v. stack_of entered_seen v.items) (spec.enter_chain (chain_of last.now
        (stack_of class_seen before.entry.items) parent.now) world.old) result world.new }
{
    let outer = outer_scope(world, parent);
    let scope = enter_scope(world, last, outer)?;
    let mut first = Vec::new(world.heap.alloc());
    first.push(Entered { class: last, scope })?;
    enter_all(world, before, scope, first)
}

#[tactic(auto, unfolding(crate::specs::Listing::enter_all), using(crate::proofs::Stacks::put_on))]
fn enter_all<'a>(
    world: &mut World<'a>,
    classes: Vec<&'a Class>,
    parent: ScopeId,
    done: Vec<Entered<'a>>,
) -> Result<Vec<Entered<'a>>, Stop>
    ensures { Gives (λ v. stack_of entered_seen v.items) (spec.enter_all (stack_of class_seen classes.entry.items)
        parent.number (stack_of entered_seen done.entry.items) world.old) result world.new }
{
    let mut left = classes;
    let mut parent = parent;
    let mut all = done;
    while let Some(class) = left.pop() {
        let scope = enter_scope(world, class, parent)?;
        all.push(Entered { class, scope })?;
        parent = scope;
    }
    Ok(all)
}

#[tactic(auto, unfolding(crate::specs::Listing::enter_scope))]
fn enter_scope(world: &mut World<'_>, class: &Class, parent: ScopeId) -> Result<ScopeId, Stop>
    ensures { Gives (λ s. s.number) (spec.enter_scope class.now parent.number world.old) result world.new }
{
    let name = class_name(world.heap.alloc(), class)?;
    Ok(
        world
            .scopes
            .enter(world.heap.alloc(), ScopeKind::Class(name), parent)?,
    )
}

/// The scope that a class is entered from: that of its parent, which is declared already, or else top scope.
fn outer_scope(world: &World<'_>, parent: &Option<Text>) -> ScopeId
    ensures { result.number ≡ spec.outer_scope parent.now world.now }
{
    match parent {
        Some(parent) => world.scopes.of_class(parent).unwrap_or(ScopeId::TOP),
        None => ScopeId::TOP,
    }
}

/// Lists these classes, the first of them with what was given. The last one stands first in the answer.
#[tactic(auto, unfolding(crate::specs::Listing::list_all), using(crate::proofs::Stacks::put_on))]
pub fn list_all<'a>(
    world: &mut World<'a>,
    classes: Vec<Entered<'a>>,
    given: &Attributes,
    at: &Place,
    from: u32,
) -> Result<Vec<Listed>, Stop>
    ensures { Gives (λ v. stack_of same v.items) (spec.list_all (stack_of entered_seen classes.entry.items) given.now
        at.now from [] world.old) result world.new }
{
    let none = Attributes::new(world.heap.alloc());
    let mut left = classes;
    let mut given = given;
    let mut from = from;
    let mut done = Vec::new(world.heap.alloc());
    while let Some(class) = left.pop() {
        let listed = list_class(world, class, given, at, from)?;
        done.push(listed)?;
        given = &none;
        from = listed.here.owner;
    }
    Ok(done)
}

#[tactic(auto, unfolding(crate::specs::Listing::list_rule))]
fn list_class(
    world: &mut World<'_>,
    entered: Entered<'_>,
    given: &Attributes,
    at: &Place,
    from: u32,
) -> Result<Listed, Stop>
    ensures { Gives same (spec.list_rule (entered_seen entered.entry) given.now at.now from world.old) result
        world.new }
{
    let number = declare(world, entered.class, given, at, from)?;
    let listed = own(world, entered.class, entered.scope, number, from)?;
    name_class(world, entered.class, listed)?;
    Ok(listed)
}

/// Sets the names of a class, before any body is evaluated.
#[tactic(auto, unfolding(crate::specs::Listing::class_names))]
fn name_class(world: &mut World<'_>, class: &Class, listed: Listed) -> Result<(), Stop>
    ensures { Gives nothing (spec.class_names (class_name class.now) listed world.old) result world.new }
{
    let name = class_name(world.heap.alloc(), class)?;
    let home = module_of(world.heap.alloc(), &world.environment, &name)?;
    set_names(world, &name, &home, listed)
}

/// What the class declares belongs to a new owner.
#[tactic(auto, unfolding(crate::specs::Listing::own_rule))]
fn own(
    world: &mut World<'_>,
    class: &Class,
    scope: ScopeId,
    number: u32,
    from: u32,
) -> Result<Listed, Stop>
    ensures { Gives same (spec.own_rule class.now scope.number number from world.old) result world.new }
{
    let outer = world.owners.get(from).scope;
    let owner = class_owner(
        world.heap.alloc(),
        &world.environment,
        class,
        number,
        scope.number,
    )?;
    world.overrides.open_scope(scope.number, Some(outer))?;
    let owner = world.owners.add(owner)?;
    Ok(Listed {
        number,
        line: class.at,
        here: Here {
            scope,
            owner,
            typed: false,
        },
    })
}

fn class_owner(
    alloc: Global,
    environment: &Environment<'_>,
    class: &Class,
    number: u32,
    scope: u32,
) -> Result<Owner, Memory>
    ensures { IfOk result (λ o. o ≡ spec.class_owner environment.now class.now number scope) }
{
    let name = class_name(alloc, class)?;
    let file = file_of(alloc, environment, &name)?;
    let source = class_source(alloc, &name)?;
    Ok(Owner {
        file,
        source,
        resource: number,
        scope,
    })
}

/// The parent of the last one has to be a class of the site.
pub fn check_parent(world: &World<'_>, parent: &Option<Text>, at: &Place) -> Result<(), Stop>
    ensures { Gives nothing (spec.known_parent parent.now at.now world.now) result world.now }
{
    match parent {
        Some(parent) => {
            let _class = class_found(world.heap.alloc(), &world.environment, parent, at)?;
            Ok(())
        }
        None => Ok(()),
    }
}
