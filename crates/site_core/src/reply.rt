use crate::language::Language;

/// What a request is answered, over catalogs `C` and faults `F`.
#[derive(Debug, Drop, PartialEq)]
pub enum ReplyOf<C, F> {
    /// The catalog, made from the first `k` entries; the node's exports are entry `entry`.
    Served { entry: u32, k: u32, catalog: C },
    /// What the first `k` entries mean for the node is this fault.
    Refused { k: u32, fault: F },
    /// The history has as many entries as it may have.
    HistoryFull { length: u32 },
    /// Whoever asks has seen more entries than there are.
    SeenAhead { length: u32 },
    /// The request has no facts, and the site after the first `k` entries lists none for the node.
    UnknownNode { k: u32 },
    /// The node was deactivated by entry `entry`.
    Deactivated { entry: u32 },
    /// The site was deployed by entry `entry`.
    Deployed { entry: u32 },
    /// The report was filed as entry `entry`.
    Reported { entry: u32 },
    Memory,
}

/// What a request is answered in a language.
pub type Reply<L> = ReplyOf<<L as Language>::Catalog, <L as Language>::Fault>;
