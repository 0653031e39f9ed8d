ghost use Rattle.std.specs.Prelude.{◌≡◌, IfOk, IfSome, Ok, option_map};
ghost use Rattle.pp_tree.specs.Building.{form_of};
ghost use Rattle.pp_tree.specs.declared.collector.Test.TheOpen.{Form-F};
ghost use Rattle.pp_tree.specs.declared.expr.Form.{out-Form};
ghost use Rattle.pp_values.specs.Datum.{int, text};
ghost use Rattle.pp_values.specs.Views.{view};
ghost use Rattle.eval_world.specs.declared.here.Here.{Here};
ghost use Rattle.eval_world.specs.declared.world.World.{World};
ghost use Rattle.eval_world.specs.Leaves.{known_in, number_in};
ghost use Rattle.eval_world.specs.Nests.{Nests};
ghost use Rattle.eval_world.specs.Outcomes.{Gives, same};

use crate::evaluated::Evaluated;
use crate::goal::Goal;
use crate::here::Here;
use crate::meaning::Meaning;
use crate::world::World;
use pp_tree::{Block, Expr, Form, Reference, Words};
use pp_values::{Memory, Stop, Text, Value};
use std::alloc::Global;
use std::marker::PhantomData;

/// What a form of the language is given: the function that evaluates its parts, and how many levels are left for them.
#[derive(Clone, Copy)]
pub struct Forms<F, M> {
    pub left: u32,
    pub inner: F,
    pub meaning: PhantomData<M>,
}

impl<F: Fn(&mut World<'_>, Goal<'_>, Here, u32) -> Result<Evaluated, Stop>, M: Meaning> Forms<
    F,
    M,
> {
    /// The value of an expression that stands one level further in. What has no parts is evaluated here.
    pub fn value(&self, world: &mut World<'_>, expr: &Expr, here: Here) -> Result<Evaluated, Stop>
        requires { Nests (M.within self.now.left) self.now.left (F.pre self.now.inner) (F.post self.now.inner) }
        ensures { Gives same ((M.within self.now.left).value expr.now here world.old) result world.new }
    {
        if self.left == 0 {
            return self.part(world, expr, here);
        }
        match expr.form.get() {
            Form::Number(number) => Ok(Evaluated::new(Value::Int(*number))),
            Form::Text(text) => Ok(text_value(world.heap.alloc(), text)?),
            Form::Name(name) => Ok(text_value(world.heap.alloc(), name)?),
            Form::Variable(name) => world.read(here, name, expr.at),
            _ => self.part(world, expr, here),
        }
    }

    /// The same by the function that this is given: the shorter way for what has parts.
    #[inline(always)]
    pub fn part(&self, world: &mut World<'_>, expr: &Expr, here: Here) -> Result<Evaluated, Stop>
        requires { Nests (M.within self.now.left) self.now.left (F.pre self.now.inner) (F.post self.now.inner) }
        ensures { Gives same ((M.within self.now.left).value expr.now here world.old) result world.new }
    {
        (self.inner)(world, Goal::Value(expr), here, self.left)
    }

    /// The value of an expression that is a variable, where that has one and does not stand too deep: without a copy.
    #[inline(always)]
    #[tactic(auto, unfolding(crate::specs::Leaves::known_in))]
    pub fn known<'w>(&self, world: &'w World<'_>, expr: &Expr, here: Here) -> Option<&'w Value>
        ensures which { option_map (λ v. view v.now) result
            ≡ known_in self.now.left expr.now here world.now.scopes }
        ensures said { IfSome result (λ v. (M.within self.now.left).value expr.now here world.now
            ≡ Ok (view v.now, world.now)) }
    {
        match expr.form.get() {
            Form::Variable(name) if self.left != 0 => world.scopes.get(here.scope, name),
            _ => None,
        }
    }

    /// The integer that an expression is by itself, where it does not stand too deep.
    #[tactic(auto, unfolding(crate::specs::Leaves::number_in))]
    pub fn number(&self, expr: &Expr) -> Option<i64>
        ensures which { result ≡ number_in self.now.left expr.now }
        ensures form { IfSome result (λ z. out-Form (form_of expr.now) ≡ Form-F.Number z) }
        ensures said { IfSome result (λ z. (here : Here) → (w : World)
            → (M.within self.now.left).value expr.now here w ≡ Ok (int z, w)) }
    {
        match expr.form.get() {
            Form::Number(number) if self.left != 0 => Some(*number),
            _ => None,
        }
    }

    /// The value of a block that stands one level further in, and belongs to what begins at this line.
    #[inline(always)]
    pub fn block(
        &self,
        world: &mut World<'_>,
        block: &Block,
        line: u32,
        here: Here,
    ) -> Result<Evaluated, Stop>
        requires { Nests (M.within self.now.left) self.now.left (F.pre self.now.inner) (F.post self.now.inner) }
        ensures { Gives same ((M.within self.now.left).block block.now line here world.old) result world.new }
    {
        (self.inner)(world, Goal::Block(block, line), here, self.left)
    }

    /// The value of a call without parentheses.
    pub fn words(&self, world: &mut World<'_>, words: &Words, here: Here) -> Result<Evaluated, Stop>
        requires { Nests (M.within self.now.left) self.now.left (F.pre self.now.inner) (F.post self.now.inner) }
        ensures { Gives same ((M.within self.now.left).words words.now here world.old) result world.new }
    {
        (self.inner)(world, Goal::Words(words), here, self.left)
    }

    /// The target of an override, whose arguments stand one level further in.
    pub fn target(
        &self,
        world: &mut World<'_>,
        target: &Reference,
        here: Here,
    ) -> Result<Evaluated, Stop>
        requires { Nests (M.within self.now.left) self.now.left (F.pre self.now.inner) (F.post self.now.inner) }
        ensures { Gives same ((M.within self.now.left).target target.now here world.old) result world.new }
    {
        (self.inner)(world, Goal::Target(target), here, self.left)
    }

    /// The body of the class of this declaration.
    pub fn class(
        &self,
        world: &mut World<'_>,
        number: u32,
        line: u32,
        here: Here,
    ) -> Result<Evaluated, Stop>
        requires { Nests (M.within self.now.left) self.now.left (F.pre self.now.inner) (F.post self.now.inner) }
        ensures { Gives same ((M.within self.now.left).class number line here world.old) result world.new }
    {
        (self.inner)(world, Goal::Class(number, line), here, self.left)
    }

    /// The instance of this declaration.
    pub fn instance(
        &self,
        world: &mut World<'_>,
        number: u32,
        line: u32,
        here: Here,
    ) -> Result<Evaluated, Stop>
        requires { Nests (M.within self.now.left) self.now.left (F.pre self.now.inner) (F.post self.now.inner) }
        ensures { Gives same ((M.within self.now.left).instance number line here world.old) result world.new }
    {
        (self.inner)(world, Goal::Instance(number, line), here, self.left)
    }
}

fn text_value(alloc: Global, said: &Text) -> Result<Evaluated, Memory>
    ensures { IfOk result (λ e. e ≡ text said.now) }
{
    Ok(Evaluated::new(Value::Text(said.copy(alloc)?)))
}
