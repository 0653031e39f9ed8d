//! What the bodies of classes and instances do.
ghost use Rattle.std.specs.Prelude.{◌≡◌, ◌<◌, length};
ghost use Rattle.eval_classes.specs.Bodies as spec;
ghost use Rattle.eval_world.specs.Nests.{Nests};
ghost use Rattle.eval_world.specs.Outcomes.{Gives, same};
ghost use Rattle.res_core.specs.AttributeViews.{set_in};

use crate::binding::Binding;
use crate::definitions::{class_found, define_found};
use crate::homes::module_of;
use crate::listed::Listed;
use crate::own_names::set_names;
use crate::parameters::bind;
use eval_world::{Evaluated, Forms, Goal, Here, Meaning, World};
use pp_tree::{Block, Param};
use pp_values::{Stop, Value};
use res_core::{Attributes, copy_attributes};

/// The body of the class of this declaration, whose scope is entered. It is refused at this line where it is too deep.
#[tactic(auto, unfolding(crate::specs::Bodies::class_rule))]
pub fn class_body<
    F: Fn(&mut World<'_>, Goal<'_>, Here, u32) -> Result<Evaluated, Stop>,
    M: Meaning,
>(
    forms: &Forms<F, M>,
    world: &mut World<'_>,
    number: u32,
    line: u32,
    own: Here,
) -> Result<Evaluated, Stop>
    requires { Nests (M.within forms.now.left) forms.now.left (F.pre forms.now.inner) (F.post forms.now.inner) }
    ensures { Gives same (spec.class_rule (M.within forms.now.left) number line own world.old) result world.new }
{
    if number < world.book.count() {
        let body = Listed {
            number,
            line,
            here: own,
        };
        return declared_class(forms, world, body);
    }
    Ok(Evaluated::new(Value::Undef))
}

#[tactic(auto, using(crate::proofs::Declared::class_declared))]
fn declared_class<
    F: Fn(&mut World<'_>, Goal<'_>, Here, u32) -> Result<Evaluated, Stop>,
    M: Meaning,
>(forms: &Forms<F, M>, world: &mut World<'_>, body: Listed) -> Result<Evaluated, Stop>
    requires nests { Nests (M.within forms.now.left) forms.now.left (F.pre forms.now.inner) (F.post forms.now.inner) }
    requires there { body.number < length world.old.book }
    ensures { Gives same (spec.class_rule (M.within forms.now.left) body.number body.line body.here world.old) result
        world.new }
{
    let item = world.book.item(body.number);
    let given = copy_attributes(world.heap.alloc(), &item.item.attributes)?;
    let binding = Binding::new(world.heap.alloc(), given, item)?;
    bound_class(forms, world, &binding, body)
}

#[tactic(auto, unfolding(crate::specs::Bodies::class_body))]
fn bound_class<F: Fn(&mut World<'_>, Goal<'_>, Here, u32) -> Result<Evaluated, Stop>, M: Meaning>(
    forms: &Forms<F, M>,
    world: &mut World<'_>,
    binding: &Binding,
    body: Listed,
) -> Result<Evaluated, Stop>
    requires { Nests (M.within forms.now.left) forms.now.left (F.pre forms.now.inner) (F.post forms.now.inner) }
    ensures { Gives same (spec.class_body (M.within forms.now.left) binding.now.given binding.now.of binding.now.at
        body.number body.line body.here world.old) result world.new }
{
    let alloc = world.heap.alloc();
    let class = class_found(alloc, &world.environment, &binding.of.title, &binding.at)?;
    let params = class.params.as_slice();
    run_body(forms, world, binding, params, &class.block, body)
}

/// The instance of this declaration, whose scope is entered. It is refused at this line where it is too deep.
#[tactic(auto, unfolding(crate::specs::Bodies::instance_rule))]
pub fn instance_body<
    F: Fn(&mut World<'_>, Goal<'_>, Here, u32) -> Result<Evaluated, Stop>,
    M: Meaning,
>(
    forms: &Forms<F, M>,
    world: &mut World<'_>,
    number: u32,
    line: u32,
    own: Here,
) -> Result<Evaluated, Stop>
    requires { Nests (M.within forms.now.left) forms.now.left (F.pre forms.now.inner) (F.post forms.now.inner) }
    ensures { Gives same (spec.instance_rule (M.within forms.now.left) number line own world.old) result world.new }
{
    if number < world.book.count() {
        let body = Listed {
            number,
            line,
            here: own,
        };
        return declared_instance(forms, world, body);
    }
    Ok(Evaluated::new(Value::Undef))
}

#[tactic(auto, using(crate::proofs::Declared::instance_declared))]
fn declared_instance<
    F: Fn(&mut World<'_>, Goal<'_>, Here, u32) -> Result<Evaluated, Stop>,
    M: Meaning,
>(forms: &Forms<F, M>, world: &mut World<'_>, body: Listed) -> Result<Evaluated, Stop>
    requires nests { Nests (M.within forms.now.left) forms.now.left (F.pre forms.now.inner) (F.post forms.now.inner) }
    requires there { body.number < length world.old.book }
    ensures { Gives same (spec.instance_rule (M.within forms.now.left) body.number body.line body.here world.old) result
        world.new }
{
    let alloc = world.heap.alloc();
    let item = world.book.item(body.number);
    let given = world.overrides.attributes(alloc, &world.book, body.number)?;
    let binding = Binding::new(alloc, given, item)?;
    bound_instance(forms, world, &binding, body)
}

#[tactic(auto, unfolding(crate::specs::Bodies::instance_body))]
fn bound_instance<
    F: Fn(&mut World<'_>, Goal<'_>, Here, u32) -> Result<Evaluated, Stop>,
    M: Meaning,
>(
    forms: &Forms<F, M>,
    world: &mut World<'_>,
    binding: &Binding,
    body: Listed,
) -> Result<Evaluated, Stop>
    requires { Nests (M.within forms.now.left) forms.now.left (F.pre forms.now.inner) (F.post forms.now.inner) }
    ensures { Gives same (spec.instance_body (M.within forms.now.left) binding.now.given binding.now.of binding.now.at
        body.number body.line body.here world.old) result world.new }
{
    let alloc = world.heap.alloc();
    let kind = binding.of.kind.as_text();
    let define = define_found(alloc, &world.environment, kind, &binding.at)?;
    let home = module_of(alloc, &world.environment, kind)?;
    set_names(world, &binding.of.title, &home, body)?;
    let params = define.params.as_slice();
    run_body(forms, world, binding, params, &define.block, body)
}

/// The parameters, and then the block.
#[tactic(auto, unfolding(crate::specs::Bodies::body_rule))]
fn run_body<F: Fn(&mut World<'_>, Goal<'_>, Here, u32) -> Result<Evaluated, Stop>, M: Meaning>(
    forms: &Forms<F, M>,
    world: &mut World<'_>,
    binding: &Binding,
    params: &[Param],
    block: &Block,
    body: Listed,
) -> Result<Evaluated, Stop>
    requires nests { Nests (M.within forms.now.left) forms.now.left (F.pre forms.now.inner) (F.post forms.now.inner) }
    ensures { Gives same (spec.body_rule (M.within forms.now.left) (set_in binding.now.given) binding.now.of
        binding.now.at params.now block.now body.number body.line body.here world.old) result
        world.new }
{
    let bound = bind(forms, world, binding, params, body.here)?;
    keep(world, body.number, bound);
    forms.block(world, block, body.line, body.here)
}

/// Keeps the values of the parameters.
#[tactic(auto, using(crate::proofs::Declared::nothing_kept))]
fn keep(world: &mut World<'_>, number: u32, bound: Attributes)
    ensures { world.new ≡ spec.kept number bound world.old }
{
    if number < world.book.count() {
        world.book.set_bound(number, bound);
    }
}
