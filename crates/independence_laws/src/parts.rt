//! What a part of a manifest comes to, by what was evaluated before.

ghost use Rattle.std.specs.Prelude.{ℕ, List};
ghost use Rattle.pp_values.specs.Datum.{Datum};
ghost use Rattle.pp_tree.specs.declared.statement.Statement.{Statement};
ghost use Rattle.scope_core.specs.Names.{Name};
ghost use Rattle.eval_world.specs.Environment.{Environment};
ghost use Rattle.eval_world.specs.declared.here.Here.{Here};
ghost use Rattle.eval_world.specs.declared.world.World.{World};
ghost use Rattle.class_eval.specs.Meaning.{within};
ghost use Rattle.class_eval.specs.Starting.{started};
ghost use Rattle.independence_laws.specs.Alike.{AreAlike, IsSameHere};
ghost use Rattle.independence_laws.specs.Computing.{Computes, IsSound, behind};
ghost use Rattle.independence_laws.specs.Steps.{Comes, Equal, SameInner};

/// Whatever part of a manifest is evaluated, with whatever levels left: from two worlds that differ only in which numbers
/// the owners of code have, and in what stood in the log, it comes to the same fault, or to the same value and to two
/// worlds that differ in no more, with the same new lines in the log.
pub fn parts_are_independent()
    ensures { (levels : ℕ) → SameInner (within levels) }
{}

/// A call of a function, of a template or of a lambda that only computes leaves such a world, once its scope has ended.
pub fn calls_leave_worlds_alike()
    ensures first { (m : Environment) (node : Name) (facts : Datum) → IsSound (started m node facts) }
    ensures leaves { (w u : World) → IsSound w → Computes w u → AreAlike w.log u.log w (behind w u) }
{}

/// So what is evaluated behind such a call comes to what it would have come to without it.
pub fn later_is_the_same()
    ensures { (w u : World) → IsSound w → Computes w u → (levels : ℕ) (b : List Statement) (line : ℕ) (here : Here)
        → IsSameHere w.owners w.owners here here
        → Comes Equal w.log u.log w (behind w u) ((within levels).block b line here w)
        ((within levels).block b line here (behind w u)) }
{}
