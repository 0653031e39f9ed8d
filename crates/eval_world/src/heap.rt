use std::alloc::Global;
use std::marker::Model;

/// Where a compile has its memory from. A contract sees nothing of it, so that what a compile means does not depend on
/// it.
#[derive(Drop)]
pub struct Heap {
    alloc: Global,
}

impl Model for Heap {
    ghost use Rattle.std.specs.Prelude.{⊤};

    ghost Value = { ⊤ };

    ghost view = { λ h. tt };
}

impl Heap {
    /// A heap over this allocator.
    pub fn new(alloc: Global) -> Heap {
        Heap { alloc }
    }

    /// The allocator, which is handed to whatever takes memory for the compile.
    pub fn alloc(&self) -> Global {
        self.alloc
    }
}
