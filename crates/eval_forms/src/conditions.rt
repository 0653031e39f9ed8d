//! `if` and `unless`.
ghost use Rattle.eval_forms.specs.Conditions as spec;
ghost use Rattle.eval_world.specs.Nests.{Nests};
ghost use Rattle.eval_world.specs.Outcomes.{Gives, same};

use crate::prefixes::truth;
use eval_world::{Evaluated, Forms, Goal, Here, Meaning, World};
use pp_tree::{Block, Elsif, If, Unless};
use pp_values::{Items, Stop, Value};

/// `if $a { } elsif $b { } else { }`. A block that stands too deep is refused at the line of the whole.
#[tactic(auto, unfolding(crate::specs::Conditions::if_rule))]
pub fn if_of<F: Fn(&mut World<'_>, Goal<'_>, Here, u32) -> Result<Evaluated, Stop>, M: Meaning>(
    forms: &Forms<F, M>,
    world: &mut World<'_>,
    choice: &If,
    line: u32,
    here: Here,
) -> Result<Evaluated, Stop>
    requires { Nests (M.within forms.now.left) forms.now.left (F.pre forms.now.inner) (F.post forms.now.inner) }
    ensures { Gives same (spec.if_rule (M.within forms.now.left) choice.now line here world.old) result world.new }
{
    if truth(forms, world, &choice.condition, here)? {
        return forms.block(world, &choice.block, line, here);
    }
    elsifs(forms, world, &choice.elsifs, &choice.otherwise, line, here)
}

/// `elsif $b { } else { }`
#[tactic(auto, unfolding(crate::specs::Conditions::elsifs_from))]
fn elsifs<F: Fn(&mut World<'_>, Goal<'_>, Here, u32) -> Result<Evaluated, Stop>, M: Meaning>(
    forms: &Forms<F, M>,
    world: &mut World<'_>,
    elsifs: &Items<Elsif>,
    last: &Option<Block>,
    line: u32,
    here: Here,
) -> Result<Evaluated, Stop>
    requires { Nests (M.within forms.now.left) forms.now.left (F.pre forms.now.inner) (F.post forms.now.inner) }
    ensures { Gives same (spec.elsifs_from (M.within forms.now.left) elsifs.now last.now line here world.old)
        result world.new }
{
    let mut rest = elsifs.as_slice();
    while let Some((elsif, more)) = rest.split_first() {
        if truth(forms, world, &elsif.condition, here)? {
            return forms.block(world, &elsif.block, line, here);
        }
        rest = more;
    }
    otherwise(forms, world, last, line, here)
}

/// The block of `else`, where there is one.
#[tactic(auto, unfolding(crate::specs::Conditions::otherwise_rule))]
fn otherwise<F: Fn(&mut World<'_>, Goal<'_>, Here, u32) -> Result<Evaluated, Stop>, M: Meaning>(
    forms: &Forms<F, M>,
    world: &mut World<'_>,
    last: &Option<Block>,
    line: u32,
    here: Here,
) -> Result<Evaluated, Stop>
    requires { Nests (M.within forms.now.left) forms.now.left (F.pre forms.now.inner) (F.post forms.now.inner) }
    ensures { Gives same (spec.otherwise_rule (M.within forms.now.left) last.now line here world.old) result world.new }
{
    match last {
        Some(block) => forms.block(world, block, line, here),
        None => Ok(Evaluated::new(Value::Undef)),
    }
}

/// `unless $a { } else { }`
#[tactic(auto, unfolding(crate::specs::Conditions::unless_rule))]
pub fn unless_of<F: Fn(&mut World<'_>, Goal<'_>, Here, u32) -> Result<Evaluated, Stop>, M: Meaning>(
    forms: &Forms<F, M>,
    world: &mut World<'_>,
    choice: &Unless,
    line: u32,
    here: Here,
) -> Result<Evaluated, Stop>
    requires { Nests (M.within forms.now.left) forms.now.left (F.pre forms.now.inner) (F.post forms.now.inner) }
    ensures { Gives same (spec.unless_rule (M.within forms.now.left) choice.now line here world.old) result world.new }
{
    if truth(forms, world, &choice.condition, here)? {
        return otherwise(forms, world, &choice.otherwise, line, here);
    }
    forms.block(world, &choice.block, line, here)
}
