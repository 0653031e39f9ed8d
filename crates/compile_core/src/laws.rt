//! What holds of every catalog that a compile makes.
ghost use Rattle.compile_core.specs.Laws.{NoCycleIsMeant};

/// So whoever applies such a catalog meets no cycle.
pub fn no_cycle_is_meant()
    ensures { NoCycleIsMeant }
{}
