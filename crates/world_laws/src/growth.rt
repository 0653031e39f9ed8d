//! Evaluation only adds to the world of a compile.

ghost use Rattle.std.specs.Prelude.{ℕ, List, Option};
ghost use Rattle.pp_tree.specs.declared.expr.Expr.{Expr};
ghost use Rattle.pp_tree.specs.declared.file.File.{File};
ghost use Rattle.pp_tree.specs.declared.statement.Statement.{Statement};
ghost use Rattle.pp_tree.specs.declared.template.Template.{Template};
ghost use Rattle.pp_values.specs.Datum.{Datum};
ghost use Rattle.pp_values.specs.Settings.{Setting};
ghost use Rattle.pp_values.specs.declared.place.Place.{Place};
ghost use Rattle.scope_core.specs.Names.{Name};
ghost use Rattle.eval_world.specs.Environment.{Environment};
ghost use Rattle.eval_world.specs.declared.here.Here.{Here};
ghost use Rattle.eval_world.specs.declared.world.World.{World};
ghost use Rattle.class_eval.specs.Evaluating.{value_at, block_at, main_rule, class_at, instance_at, render_at};
ghost use Rattle.class_eval.specs.Meaning.{within};
ghost use Rattle.class_eval.specs.Starting.{started};
ghost use Rattle.world_laws.specs.Extends.{Extends, IsPlaced};
ghost use Rattle.world_laws.specs.Growing.{Grows, GrowsInner};

/// A world extends itself, and what extends a world that extends another one extends that one too.
pub fn extending()
    ensures same { (w : World) → Extends w w }
    ensures further { (a b c : World) → Extends a b → Extends b c → Extends a c }
{}

/// Before any statement is evaluated all stands in scopes that were opened, and so it does from then on.
pub fn all_is_placed()
    ensures first { (m : Environment) (node : Name) (facts : Datum) → IsPlaced (started m node facts) }
    ensures further { (v w : World) → Extends v w → IsPlaced v → IsPlaced w }
{}

/// Whatever part of a manifest is evaluated, with whatever levels left: an expression, a block, a call without
/// parentheses, the target of an override, the body of a class or an instance. Where a world comes out, it
/// extends the one before.
pub fn parts_only_add()
    ensures { (levels : ℕ) → GrowsInner (within levels) }
{}

/// The same of what the calls of an evaluator mean.
pub fn calls_only_add()
    ensures value_of { (e : Expr) (here : Here) (depth : ℕ) → Grows (value_at e here depth) }
    ensures run_block { (b : List Statement) (line : ℕ) (here : Here) (depth : ℕ) → Grows (block_at b line here depth) }
    ensures run_main { (main : File) (node : List ℕ) → Grows (main_rule main node) }
    ensures declare_class { (x : List ℕ) (given : Option (List Setting)) (at : Place) (here : Here) (depth : ℕ)
        → Grows (class_at x given at here depth) }
    ensures run_instance { (number depth : ℕ) → Grows (instance_at number depth) }
    ensures render { (t : Template) (here : Here) (depth : ℕ) → Grows (render_at t here depth) }
{}
