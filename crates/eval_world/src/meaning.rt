/// What the parts that stand one level further in mean, by the number of levels that are left for them.
///
/// It has no method: a form of the language calls the function that it is given, and this names what that gives.
pub trait Meaning {
    ghost use Rattle.std.specs.Prelude.{ℕ, suc};
    ghost use Rattle.eval_world.specs.Inner.{Inner};
    ghost use Rattle.eval_world.specs.Leaves.{Leaves};

    ghost within: { ℕ → Inner };

    /// Where a level is left, what has no parts means what it says.
    ghost leaves: { (left : ℕ) → Leaves (within (suc left)) };
}
