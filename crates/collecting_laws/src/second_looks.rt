//! What a second look of a collector finds.

ghost use Rattle.std.specs.Prelude.{◌≡◌, ◌<◌, ◌≤◌, ℕ, Bool, List, length, Ok};
ghost use Rattle.res_book.specs.Rows.{AreApart};
ghost use Rattle.res_core.specs.declared.exported.Exported.{Exported};
ghost use Rattle.eval_collecting.specs.Importing.{import_match};
ghost use Rattle.eval_collecting.specs.Matching.{local_match};
ghost use Rattle.eval_world.specs.declared.world.World.{World};
ghost use Rattle.world_laws.specs.Extends.{Extends, IsPlaced};
ghost use Rattle.collecting_laws.specs.Looks.{IsQuiet, ImportIsQuiet, touched_at};

/// Right after a look at a declaration a second one adds nothing, has no fault and leaves the world as it was; and so
/// does each later one, whatever was looked at and evaluated since, while no more lines and defaults concern the
/// declaration than did then. How many do never falls.
pub fn a_second_look_finds_nothing()
    ensures again { (c n : ℕ) (w v : World) (added : Bool) → local_match c n w ≡ Ok (added, v) → IsQuiet v c n }
    ensures later { (c n : ℕ) (w v : World) → IsPlaced w → Extends w v → c < length w.relations.collectors
        → n < length w.book → touched_at v n ≡ touched_at w n → IsQuiet w c n → IsQuiet v c n }
    ensures rises { (n : ℕ) (w v : World) → Extends w v → n < length w.book → touched_at w n ≤ touched_at v n }
    ensures second { (c n : ℕ) (w v u : World) (added : Bool) → IsPlaced w → c < length w.relations.collectors
        → n < length w.book → local_match c n w ≡ Ok (added, v) → Extends v u → touched_at u n ≡ touched_at w n
        → IsQuiet u c n }
{}

/// A look at a declaration makes no line and no default concern another one.
pub fn a_look_concerns_no_other()
    ensures { (c n m : ℕ) (w v : World) (added : Bool) → AreApart w.book → ¬ (m ≡ n)
        → local_match c n w ≡ Ok (added, v) → touched_at v m ≡ touched_at w m }
{}

/// What was said of a second look, of what a node exports, at which a collector looks once: no line and no default
/// makes it look again.
pub fn a_second_import_finds_nothing()
    ensures again { (c : ℕ) (node : List ℕ) (place : ℕ) (e : Exported) (w v : World) (added : Bool)
        → import_match c node place e w ≡ Ok (added, v) → ImportIsQuiet v c node place e }
    ensures later { (c : ℕ) (node : List ℕ) (place : ℕ) (e : Exported) (w v : World) → Extends w v
        → c < length w.relations.collectors → ImportIsQuiet w c node place e → ImportIsQuiet v c node place e }
{}
