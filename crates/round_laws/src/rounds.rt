//! Rounds only add, and needless looks change nothing.

ghost use Rattle.std.specs.Prelude.{◌≡◌, ℕ, List};
ghost use Rattle.export_store.specs.Sets.{Sets};
ghost use Rattle.defined_types.specs.Rounds.{round, rounds};
ghost use Rattle.eval_world.specs.declared.world.World.{World};
ghost use Rattle.world_laws.specs.Extends.{IsPlaced};
ghost use Rattle.world_laws.specs.Growing.{Grows};
ghost use Rattle.round_laws.specs.Watching.{watched_rounds};

/// Where a world comes out of one round, or of all rounds, it extends the one before.
pub fn rounds_only_add()
    ensures one { (node : List ℕ) (sets : Sets) → Grows (round node sets) }
    ensures all { (node : List ℕ) (sets : Sets) → Grows (rounds node sets) }
{}

/// Rounds in which a collector looks at a declaration again only where more lines and defaults concern it than did just
/// before its last look are the rounds: the same world, or the same fault.
pub fn needless_looks_change_nothing()
    ensures { (node : List ℕ) (sets : Sets) (w : World) → IsPlaced w
        → watched_rounds node sets w ≡ rounds node sets w }
{}
