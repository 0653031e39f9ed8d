ghost use Rattle.std.specs.Prelude.{◌≡◌};
ghost use Rattle.hiera_merge.specs.Options.{merge_named};

/// How the values that several sources have for a key become one.
#[derive(Clone, Copy, Debug, PartialEq, Eq)]
pub enum Merge {
    /// The value of the highest source.
    First,
    /// The members of all values as one list without repeats.
    Unique,
    /// The pairs of all hashes, one level deep.
    Hash,
    /// Hashes and lists joined in depth.
    Deep,
}

impl Merge {
    /// The merge of this name, as data and calls spell it.
    pub fn from_name(name: &str) -> Option<Merge>
        ensures { result ≡ merge_named name.now }
    {
        match name {
            "first" => Some(Merge::First),
            "unique" => Some(Merge::Unique),
            "hash" => Some(Merge::Hash),
            "deep" => Some(Merge::Deep),
            _ => None,
        }
    }
}
