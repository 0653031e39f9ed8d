use pp_values::Text;
use res_core::ExportSet;
use site_core::{History, Language};
use std::sync::Arc;

/// How a search for a fixed point of a site ended, over faults `F`.
#[derive(Drop)]
pub enum SettleEnd<F> {
    /// The last round changed no set.
    Settled,
    /// The last round that was allowed changed a set: this one is that of the least such node.
    NotSettled {
        node: Text,
        before: Option<Arc<ExportSet>>,
        after: Arc<ExportSet>,
    },
    /// A compile of the last round was refused: that of the least such node, made from the first `k` entries.
    Refused {
        node: Text,
        k: u32,
        fault: F,
    },
    /// No compile of the last round was refused, and the history has as many entries as it may have.
    Full {
        length: u32,
    },
}

/// What a search for a fixed point of a site made: the history, how many rounds were run, and how they ended.
#[derive(Drop)]
pub struct SettleResult<L: Language> {
    pub history: History<L::Site>,
    pub rounds: u32,
    pub end: SettleEnd<L::Fault>,
}
