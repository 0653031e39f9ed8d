//! What holds of every finished catalog, by its contract.
ghost use Rattle.catalog_finish.specs.Laws.{NoCycleIsLeft};

/// So a catalog of a compile has an order, and a run of it never tells a cycle.
pub fn no_cycle_is_left()
    ensures { NoCycleIsLeft }
{}
