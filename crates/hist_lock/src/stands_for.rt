/// A value that stands for a list of entries, some of which have an author.
pub trait StandsFor {
    ghost use Rattle.std.specs.Prelude.{ℕ, List, Option};

    type Entry;

    ghost entries: { Self → List Self.Entry };

    ghost author: { Self.Entry → Option ℕ };
}
