//! Instances of defines, one by one.
ghost use Rattle.std.specs.Prelude.{◌≡◌, ◌<◌, ◌++◌, length, IfOk, codes};
ghost use Rattle.eval_classes.specs.Bodies as spec;
ghost use Rattle.eval_world.specs.Nests.{Nests};
ghost use Rattle.eval_world.specs.Outcomes.{Gives, nothing};

use crate::body_owner::BodyOwner;
use crate::definitions::{define_among, find_with_file};
use crate::entering::enter_body;
use eval_world::{Evaluated, Forms, Goal, Here, Meaning, World};
use pp_values::{Memory, Stop, Text};
use scope_core::ScopeKind;
use std::alloc::Global;

/// What stands before the name in the source of what an instance declares.
const DEFINE: &str = "define ";

/// Evaluates the instance of this declaration, in a scope of its own.
#[tactic(auto, unfolding(crate::specs::Bodies::run_rule))]
pub fn run_instance<
    F: Fn(&mut World<'_>, Goal<'_>, Here, u32) -> Result<Evaluated, Stop>,
    M: Meaning,
>(forms: &Forms<F, M>, world: &mut World<'_>, number: u32) -> Result<(), Stop>
    requires { Nests (M.within forms.now.left) forms.now.left (F.pre forms.now.inner) (F.post forms.now.inner) }
    ensures { Gives nothing (spec.run_rule (M.within forms.now.left) number world.old) result world.new }
{
    if number < world.book.count() {
        return run_declared(forms, world, number);
    }
    Ok(())
}

#[tactic(auto, unfolding(crate::specs::Bodies::run_rule, crate::specs::Bodies::run_item, crate::specs::Definitions::define_found))]
fn run_declared<F: Fn(&mut World<'_>, Goal<'_>, Here, u32) -> Result<Evaluated, Stop>, M: Meaning>(
    forms: &Forms<F, M>,
    world: &mut World<'_>,
    number: u32,
) -> Result<(), Stop>
    requires nests { Nests (M.within forms.now.left) forms.now.left (F.pre forms.now.inner) (F.post forms.now.inner) }
    requires there { number < length world.old.book }
    ensures { Gives nothing (spec.run_rule (M.within forms.now.left) number world.old) result world.new }
{
    let item = world.book.item(number);
    let outer = item.scope;
    let kind = item.item.kind.as_text();
    let alloc = world.heap.alloc();
    let (found, file) = find_with_file(alloc, &world.environment, kind)?;
    let define = define_among(alloc, found, kind, &item.at)?;
    let owner = instance_owner(alloc, file, kind, number)?;
    let own = enter_body(world, ScopeKind::Instance, 0, outer, owner)?;
    drop(forms.instance(world, number, define.at, own)?);
    Ok(())
}

fn instance_owner(alloc: Global, file: Text, kind: &Text, number: u32) -> Result<BodyOwner, Memory>
    ensures { IfOk result (λ o. o ≡ record { file = file; source = codes "define " ++ kind.now; resource = number }) }
{
    let kind = kind.as_str();
    let mut source = String::with_capacity(alloc, kind.len().saturating_add(DEFINE.len()))?;
    source.push_str(DEFINE)?;
    source.push_str(kind)?;
    Ok(BodyOwner {
        file,
        source: Text::new(source),
        resource: number,
    })
}
