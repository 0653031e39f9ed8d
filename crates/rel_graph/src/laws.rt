//! Laws of orders and cycles, which hold by their contracts.
ghost use Rattle.rel_graph.specs.Laws.{OneOrder, OneCycle, OrderHasNoCycle, SomeOrder};
ghost use Rattle.rel_graph.specs.Laws.{CycleInIsTheCycle, CycleOfAnyCount, WayIsTheShortest, WayOfAnyCount};

/// So an order that `Graph::order` gives is the order.
pub fn there_is_one_order()
    ensures { OneOrder }
{}

pub fn there_is_one_cycle()
    ensures { OneCycle }
{}

/// So there is an order exactly where no resource comes before itself: else `Graph::order` tells a cycle, if it has
/// the memory.
pub fn an_order_has_no_cycle()
    ensures { OrderHasNoCycle }
{}

/// So an order is missing only where a resource comes before itself.
pub fn there_is_an_order()
    ensures { SomeOrder }
{}

/// So the cycle that definitions compute is the one that `build` and `Graph::order` tell.
pub fn the_cycle_is_computed()
    ensures { CycleInIsTheCycle }
{}

/// So the count at which that search ends is no part of what it finds.
pub fn a_greater_count_finds_the_same()
    ensures { CycleOfAnyCount }
{}

/// So what stands inside what, and what comes directly before what, is found by ways of any length.
pub fn the_way_is_the_shortest()
    ensures { WayIsTheShortest }
{}

pub fn a_greater_count_finds_the_same_way()
    ensures { WayOfAnyCount }
{}
