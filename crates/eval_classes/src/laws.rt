//! Laws of the definitions that go over the parents of classes.

ghost use Rattle.eval_classes.specs.Laws.{ChainsAlike, ComesAlike, SourcesAlike};

/// A way over the parents of classes ends within one turn more than there are definitions, or it comes back to a class that
/// it passed: the number of turns decides nothing.
pub fn ways_suffice()
    ensures comes_to { ComesAlike }
    ensures sources { SourcesAlike }
    ensures chain { ChainsAlike }
{}
