//! Resource expressions.
ghost use Rattle.std.specs.Prelude.{◌≡◌};
ghost use Rattle.eval_resources.specs.Resources as spec;
ghost use Rattle.eval_world.specs.Nests.{Nests};
ghost use Rattle.eval_world.specs.Outcomes.{Gives, nothing};

use crate::bodies::bodies;
use crate::titles::declare_bodies;
use eval_classes::normal_name;
use eval_world::{Evaluated, Forms, Goal, Here, Meaning, World};
use pp_tree::{Resource, ResourceForm};
use pp_values::Stop;
use res_core::Form;

/// `file { ['/a', '/b']: mode => '0644'; default: owner => 'root' }`, or behind `@` or `@@`.
#[tactic(auto, unfolding(crate::specs::Resources::resource_rule))]
pub fn resource<F: Fn(&mut World<'_>, Goal<'_>, Here, u32) -> Result<Evaluated, Stop>, M: Meaning>(
    forms: &Forms<F, M>,
    world: &mut World<'_>,
    written: &Resource,
    here: Here,
) -> Result<(), Stop>
    requires { Nests (M.within forms.now.left) forms.now.left (F.pre forms.now.inner) (F.post forms.now.inner) }
    ensures { Gives nothing (spec.resource_rule (M.within forms.now.left) written.now here world.old) result world.new }
{
    let bodies = bodies(forms, world, &written.bodies, here)?;
    let kind = normal_name(world.heap.alloc(), &written.kind)?;
    let form = form_of(written.form);
    declare_bodies(forms, world, form, &kind, bodies.as_slice(), here)
}

pub fn form_of(written: ResourceForm) -> Form
    ensures { result ≡ spec.form_of written }
{
    match written {
        ResourceForm::Plain => Form::Plain,
        ResourceForm::Virtual => Form::Virtual,
        ResourceForm::Exported => Form::Exported,
    }
}
