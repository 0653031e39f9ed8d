//! Classes that are declared by functions and by resource expressions.
ghost use Rattle.std.specs.Prelude.{◌≡◌, ◌∷◌, [], IfOk};
ghost use Rattle.res_book.specs.Rows.{item_at};
ghost use Rattle.res_core.specs.declared.operand.Operand.TheVariants as operand;
ghost use Rattle.eval_classes.specs.Included as spec;
ghost use Rattle.eval_classes.specs.Listing as listing;
ghost use Rattle.eval_classes.specs.Stacks.{chain_seen, stack_of};
ghost use Rattle.eval_world.specs.Nests.{Nests};
ghost use Rattle.eval_world.specs.Outcomes.{Gives, nothing, same};
ghost use Rattle.eval_world.specs.Owners.{owner_at};

use crate::asked::{names_asked, references};
use crate::chain::Chain;
use crate::chains::chain_of;
use crate::declaring::{is_declared, number_of};
use crate::definitions::class_found;
use crate::including::Including;
use crate::listed::Listed;
use crate::listing::{check_parent, enter_chain, list_all};
use crate::names::{class_name, class_reference};
use eval_world::{Evaluated, Forms, Goal, Here, Meaning, World};
use pp_tree::Class;
use pp_values::{Memory, Place, Reference, Stop, Text, Texts, Values, What};
use res_book::{Containment, RelationLine};
use res_core::{Attributes, Declared, Operand, Operands};
use std::alloc::Global;

/// `include`, `contain` and `require`, with their arguments there. The answer is the list of references to the classes.
#[tactic(auto, unfolding(crate::specs::Included::included))]
pub fn include<F: Fn(&mut World<'_>, Goal<'_>, Here, u32) -> Result<Evaluated, Stop>, M: Meaning>(
    forms: &Forms<F, M>,
    world: &mut World<'_>,
    including: Including,
    function: &Text,
    arguments: &Values,
    line: u32,
    here: Here,
) -> Result<Evaluated, Stop>
    requires { Nests (M.within forms.now.left) forms.now.left (F.pre forms.now.inner) (F.post forms.now.inner) }
    ensures { Gives same (spec.included (M.within forms.now.left) including function.now arguments.now line here
        world.old) result world.new }
{
    match names_asked(world.heap.alloc(), arguments)? {
        Some(names) => include_names(forms, world, including, names, line, here),
        None => refused(world, function, line, here),
    }
}

fn refused(world: &World<'_>, function: &Text, line: u32, here: Here) -> Result<Evaluated, Stop>
    ensures { Gives same (spec.refused function.now line here world.now) result world.now }
{
    let function = function.copy(world.heap.alloc())?;
    Err(Stop::Fault(world.fault(here, line, What::WrongArguments(function))?))
}

#[tactic(auto, unfolding(crate::specs::Included::include_names))]
fn include_names<F: Fn(&mut World<'_>, Goal<'_>, Here, u32) -> Result<Evaluated, Stop>, M: Meaning>(
    forms: &Forms<F, M>,
    world: &mut World<'_>,
    including: Including,
    names: Texts,
    line: u32,
    here: Here,
) -> Result<Evaluated, Stop>
    requires { Nests (M.within forms.now.left) forms.now.left (F.pre forms.now.inner) (F.post forms.now.inner) }
    ensures { Gives same (spec.include_names (M.within forms.now.left) including names line here world.old) result
        world.new }
{
    let at = world.place(here, line)?;
    include_all(forms, world, including, names.as_slice(), &at, here)?;
    Ok(references(world.heap.alloc(), names.as_slice())?)
}

/// One class after another.
#[tactic(auto, unfolding(crate::specs::Included::include_from))]
fn include_all<F: Fn(&mut World<'_>, Goal<'_>, Here, u32) -> Result<Evaluated, Stop>, M: Meaning>(
    forms: &Forms<F, M>,
    world: &mut World<'_>,
    including: Including,
    names: &[Text],
    at: &Place,
    here: Here,
) -> Result<(), Stop>
    requires { Nests (M.within forms.now.left) forms.now.left (F.pre forms.now.inner) (F.post forms.now.inner) }
    ensures { Gives nothing (spec.include_from (M.within forms.now.left) including names.now at.now here world.old)
        result world.new }
{
    let mut rest = names;
    while let Some((name, more)) = rest.split_first() {
        include_one(forms, world, including, name, at, here)?;
        rest = more;
    }
    Ok(())
}

#[tactic(auto, unfolding(crate::specs::Included::include_rule))]
fn include_one<F: Fn(&mut World<'_>, Goal<'_>, Here, u32) -> Result<Evaluated, Stop>, M: Meaning>(
    forms: &Forms<F, M>,
    world: &mut World<'_>,
    including: Including,
    name: &Text,
    at: &Place,
    here: Here,
) -> Result<(), Stop>
    requires { Nests (M.within forms.now.left) forms.now.left (F.pre forms.now.inner) (F.post forms.now.inner) }
    ensures { Gives nothing (spec.include_rule (M.within forms.now.left) including name.now at.now here world.old)
        result world.new }
{
    let class = class_found(world.heap.alloc(), &world.environment, name, at)?;
    declare_once(forms, world, class, at, here.owner)?;
    relate(world, including, class, at, here)
}

/// Declares a class as `include` does: one that is declared already stays as it is.
#[tactic(auto, unfolding(crate::specs::Included::declared_once))]
pub fn declare_once<
    'a,
    F: Fn(&mut World<'_>, Goal<'_>, Here, u32) -> Result<Evaluated, Stop>,
    M: Meaning,
>(
    forms: &Forms<F, M>,
    world: &mut World<'a>,
    class: &'a Class,
    at: &Place,
    from: u32,
) -> Result<(), Stop>
    requires { Nests (M.within forms.now.left) forms.now.left (F.pre forms.now.inner) (F.post forms.now.inner) }
    ensures { Gives nothing (spec.declared_once (M.within forms.now.left) class.now at.now from world.old) result
        world.new }
{
    if is_declared(world.heap.alloc(), &world.book, class)? {
        return Ok(());
    }
    let none = Attributes::new(world.heap.alloc());
    declare_class(forms, world, class, &none, at, from)
}

/// What the function tells of the class and the resource of the scope.
#[tactic(auto, unfolding(crate::specs::Included::relate_rule))]
fn relate(
    world: &mut World<'_>,
    including: Including,
    class: &Class,
    at: &Place,
    here: Here,
) -> Result<(), Stop>
    ensures { Gives nothing (spec.relate_rule including class.now at.now here world.old) result world.new }
{
    match including {
        Including::Include => Ok(()),
        Including::Contain => {
            let name = class_name(world.heap.alloc(), class)?;
            let number = number_of(world.heap.alloc(), &world.book, &name)?;
            contain_number(world, number, here)
        }
        Including::Require => {
            let name = class_name(world.heap.alloc(), class)?;
            require(world, &name, at, here)
        }
    }
}

/// The resource of the scope contains the class.
fn contain_number(world: &mut World<'_>, number: Option<u32>, here: Here) -> Result<(), Stop>
    ensures { Gives nothing (spec.contain_by number here world.old) result world.new }
{
    if let Some(inner) = number {
        let outer = world.owners.get(here.owner).resource;
        world
            .relations
            .add_containment(Containment { outer, inner })?;
    }
    Ok(())
}

/// The class of this name comes before the resource of the scope.
fn require(world: &mut World<'_>, name: &Text, at: &Place, here: Here) -> Result<(), Stop>
    ensures { Gives nothing (spec.require_by (item_at world.old.book (owner_at here.owner world.old.owners).resource)
        (listing.class_reference name.now) at.now world.old) result world.new }
{
    let resource = world.owners.get(here.owner).resource;
    if resource >= world.book.count() {
        return Ok(());
    }
    let line = line_before(world.heap.alloc(), name, world.book.item(resource), at)?;
    Ok(world.relations.add_line(line)?)
}

fn line_before(
    alloc: Global,
    class: &Text,
    item: &Declared,
    at: &Place,
) -> Result<RelationLine, Memory>
    ensures { IfOk result (λ l. l ≡ spec.before (listing.class_reference class.now) item.now at.now) }
{
    let left = one(alloc, class_reference(alloc, class)?)?;
    let right = one(alloc, item.reference(alloc)?)?;
    let at = at.copy(alloc)?;
    Ok(RelationLine {
        left,
        right,
        signal: false,
        at,
    })
}

fn one(alloc: Global, reference: Reference) -> Result<Operands, Memory>
    ensures { IfOk result (λ l. l ≡ operand.One reference ∷ []) }
{
    let mut operands = Operands::new(alloc);
    operands.push(Operand::One(reference))?;
    Ok(operands)
}

/// Declares a class that is not declared yet, with what was given for it, where the code of this owner stands: it is
/// listed, and its parents are; then all of them are evaluated, from the last parent on.
#[tactic(auto, unfolding(crate::specs::Listing::class_declared))]
pub fn declare_class<
    'a,
    F: Fn(&mut World<'_>, Goal<'_>, Here, u32) -> Result<Evaluated, Stop>,
    M: Meaning,
>(
    forms: &Forms<F, M>,
    world: &mut World<'a>,
    class: &'a Class,
    given: &Attributes,
    at: &Place,
    from: u32,
) -> Result<(), Stop>
    requires { Nests (M.within forms.now.left) forms.now.left (F.pre forms.now.inner) (F.post forms.now.inner) }
    ensures { Gives nothing (listing.class_declared (M.within forms.now.left) class.now given.now at.now from
        world.old) result world.new }
{
    let chain = chain_of(world.heap.alloc(), &world.environment, &world.book, class)?;
    declare_chain(forms, world, chain, given, at, from)
}

#[tactic(auto, unfolding(crate::specs::Listing::chain_declared))]
fn declare_chain<
    'a,
    F: Fn(&mut World<'_>, Goal<'_>, Here, u32) -> Result<Evaluated, Stop>,
    M: Meaning,
>(
    forms: &Forms<F, M>,
    world: &mut World<'a>,
    chain: Chain<'a>,
    given: &Attributes,
    at: &Place,
    from: u32,
) -> Result<(), Stop>
    requires { Nests (M.within forms.now.left) forms.now.left (F.pre forms.now.inner) (F.post forms.now.inner) }
    ensures { Gives nothing (listing.chain_declared (M.within forms.now.left) (chain_seen chain.entry) given.now at.now
        from world.old) result world.new }
{
    let Chain {
        last,
        before,
        parent,
    } = chain;
    let entered = enter_chain(world, last, before, &parent)?;
    let listed = list_all(world, entered, given, at, from)?;
    check_parent(world, &parent, at)?;
    run_all(forms, world, listed)
}

/// The bodies of these classes, the last one first.
#[tactic(auto, unfolding(crate::specs::Listing::run_all), using(crate::proofs::Stacks::put_on))]
fn run_all<F: Fn(&mut World<'_>, Goal<'_>, Here, u32) -> Result<Evaluated, Stop>, M: Meaning>(
    forms: &Forms<F, M>,
    world: &mut World<'_>,
    listed: Vec<Listed>,
) -> Result<(), Stop>
    requires { Nests (M.within forms.now.left) forms.now.left (F.pre forms.now.inner) (F.post forms.now.inner) }
    ensures { Gives nothing (listing.run_all (M.within forms.now.left) (stack_of same listed.items) world.old) result
        world.new }
{
    let mut left = listed;
    while let Some(next) = left.pop() {
        drop(forms.class(world, next.number, next.line, next.here)?);
    }
    Ok(())
}
