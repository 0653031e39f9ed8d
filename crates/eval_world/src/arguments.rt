//! Arguments, and the members of a list.
ghost use Rattle.std.specs.Prelude.{◌≡◌, ◌++◌, [], IfOk, OnOk};
ghost use Rattle.expr_eval.specs.Spreading.{spliced};
ghost use Rattle.eval_world.specs.Arguments as spec;
ghost use Rattle.eval_world.specs.Nests.{Nests};
ghost use Rattle.eval_world.specs.Outcomes.{Gives, same};

use crate::evaluated::Evaluated;
use crate::forms::Forms;
use crate::goal::Goal;
use crate::here::Here;
use crate::meaning::Meaning;
use crate::shapes::is_splat;
use crate::world::World;
use expr_eval::splice;
use pp_tree::{Args, Expr};
use pp_values::{Memory, Stop, Value, Values};
use std::alloc::Global;
use std::mem;

impl<F: Fn(&mut World<'_>, Goal<'_>, Here, u32) -> Result<Evaluated, Stop>, M: Meaning> Forms<
    F,
    M,
> {
    /// The values of arguments or of a list's members, in order, where `*` splices.
    #[tactic(auto, unfolding(crate::specs::Arguments::values_from))]
    pub fn values(&self, world: &mut World<'_>, args: &Args, here: Here) -> Result<Values, Stop>
        requires { Nests (M.within self.now.left) self.now.left (F.pre self.now.inner) (F.post self.now.inner) }
        ensures { Gives same (spec.values_from (M.within self.now.left) [] args.now here world.old) result world.new }
    {
        let mut done = Values::from_vec(Vec::with_capacity(world.heap.alloc(), args.len())?)?;
        let mut rest = args.as_slice();
        while let Some((arg, more)) = rest.split_first() {
            self.add_argument(world, &mut done, arg, here)?;
            rest = more;
        }
        Ok(done)
    }

    #[tactic(auto, unfolding(crate::specs::Arguments::argument_rule), using(crate::proofs::Numbers::number_argument))]
    fn add_argument(
        &self,
        world: &mut World<'_>,
        done: &mut Values,
        arg: &Expr,
        here: Here,
    ) -> Result<(), Stop>
        requires { Nests (M.within self.now.left) self.now.left (F.pre self.now.inner) (F.post self.now.inner) }
        ensures { Gives (λ _. done.new) (spec.argument_rule (M.within self.now.left) done.old arg.now here world.old)
            result world.new }
    {
        if let Some(number) = self.number(arg) {
            done.push(Value::Int(number))?;
            return Ok(());
        }
        let value = self.value(world, arg, here)?;
        if is_splat(arg) {
            add_members(world.heap.alloc(), done, value)?;
        } else {
            done.push(value.into_value())?;
        }
        Ok(())
    }
}

/// The members of a value that is spliced, behind these.
fn add_members(alloc: Global, done: &mut Values, value: Evaluated) -> Result<(), Memory>
    ensures { OnOk result (done.new ≡ done.old ++ spliced value) }
{
    let more = splice(alloc, value.as_value())?;
    let before = mem::replace(done, Values::new(alloc));
    *done = appended(before, more)?;
    Ok(())
}

/// The values and these behind them.
fn appended(done: Values, more: Values) -> Result<Values, Memory>
    ensures { IfOk result (λ l. l ≡ done ++ more) }
{
    let mut items = done.into_vec();
    items.append(&mut more.into_vec())?;
    Values::from_vec(items)
}
