use std::sync::Wait;

/// Work for one thread, which waits for nobody. Each impl says what its result promises.
pub trait Job {
    type Out;

    ghost promise: { Self → Self.Out → Type 0 };

    fn run(self) -> Self::Out
        ensures { promise self result };
}

/// Work that may wait.
pub trait WaitingJob {
    type Out;

    ghost promise: { Self → Self.Out → Type 0 };

    fn run<R: Wait>(self, rt: &R) -> Self::Out
        ensures { promise self result };
}
