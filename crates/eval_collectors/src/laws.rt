//! Laws of the queries of collectors.

ghost use Rattle.eval_collectors.specs.Laws.{LevelsOnlyRefuse};

/// More levels change nothing but an answer F29: what a query asks for is the same with any number of levels with which
/// it is answered.
pub fn levels_only_refuse()
    ensures { LevelsOnlyRefuse }
{}
