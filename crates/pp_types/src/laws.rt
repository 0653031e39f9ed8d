//! Laws of the definition by which a data type includes another.

ghost use Rattle.pp_types.specs.Includes.{includes};
ghost use Rattle.pp_types.specs.Laws.{KeepsRules, OnlyIncludes, WeightSuffices};

/// `includes` is the one answer that keeps the rules, and the number of times that they are asked within one another
/// decides nothing.
pub fn includes_by_rules()
    ensures rules { KeepsRules includes }
    ensures only { OnlyIncludes }
    ensures enough { WeightSuffices }
{}
