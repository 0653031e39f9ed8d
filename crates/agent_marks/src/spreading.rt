//! Marks that spread along arrows, without memory of their own.
ghost use Rattle.std.specs.Prelude.{◌≡◌, ◌⊎◌, ◌↔◌, ◌+◌, ◌<◌, ◌≤◌, ◌++◌, ◌∷◌, [], ℕ, Bool, List, not, length, get_or, vec_capacity};
ghost use Rattle.std.specs.List.{All, Contains, count_by};
ghost use Rattle.std.specs.declared.alloc.Global.{Global};
ghost use Rattle.std.specs.declared.vec.Vec.{Vec};
ghost use Rattle.rel_graph.specs.Before.{Belongs};
ghost use Rattle.rel_graph.specs.Marks.{Marked};
ghost use Rattle.rel_graph.specs.Pairs.{AllBelow};
ghost use Rattle.agent_marks.specs.Nodes.{targets, Closed, Pushing};

use crate::room::push_ready;

/// Marks a node that is not marked, and puts it on the stack.
fn mark(node: usize, marks: &mut Vec<bool>, stack: &mut Vec<usize>)
    requires within { node < length marks.old.items }
    requires room { length stack.old.items + count_by not marks.old.items ≤ vec_capacity stack.old }
    ensures marks { (before targets : List ℕ) (old : List Bool) → Pushing old before targets marks.old.items stack.old.items →
        Pushing old before (targets ++ node ∷ []) marks.new.items stack.new.items }
    ensures capacity { vec_capacity stack.old ≤ vec_capacity stack.new }
{
    if !marks[node] {
        marks[node] = true;
        push_ready(stack, node);
    }
}

/// Marks the targets of a node, and puts those on the stack that were not marked before.
fn mark_all(targets: &[usize], marks: &mut Vec<bool>, stack: &mut Vec<usize>)
    requires within { All (λ t. t < length marks.old.items) targets.now }
    requires room { length stack.old.items + count_by not marks.old.items ≤ vec_capacity stack.old }
    ensures marks { Pushing marks.old.items stack.old.items targets.now marks.new.items stack.new.items }
    ensures capacity { vec_capacity stack.old ≤ vec_capacity stack.new }
{
    for target in targets {
        mark(*target, marks, stack);
    }
}

/// Marks a node and all that arrows lead to from it. What was marked before has all marked that it leads to.
pub fn reach(
    arrows: &[(usize, usize)],
    table: &Vec<Vec<usize>>,
    from: usize,
    marks: &mut Vec<bool>,
    stack: &mut Vec<usize>,
)
    requires below { AllBelow arrows.now (length table.now.items) }
    requires table { (u : ℕ) (d : Vec ℕ Global) → u < length table.now.items → (get_or table.now.items u d).items ≡ targets arrows.now u }
    requires long { length marks.old.items ≡ length table.now.items }
    requires from { from < length marks.old.items }
    requires closed { Closed arrows.now marks.old.items }
    requires empty { stack.old.items ≡ [] }
    requires room { count_by not marks.old.items ≤ vec_capacity stack.old }
    ensures marked { (v : ℕ) → Marked marks.new.items v ↔ (Marked marks.old.items v ⊎ Belongs arrows.now v from) }
    ensures closed { Closed arrows.now marks.new.items }
    ensures long { length marks.new.items ≡ length marks.old.items }
    ensures empty { stack.new.items ≡ [] }
    ensures room { count_by not marks.new.items ≤ vec_capacity stack.new }
{
    mark(from, marks, stack);
    while let Some(node) = stack.pop() {
        mark_all(table[node].as_slice(), marks, stack);
    }
}
