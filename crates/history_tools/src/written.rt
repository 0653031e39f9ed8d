ghost use Rattle.site_core.specs.Counts.{AreCountsOf};

use site_core::History;
use std::collections::BTreeMap;

/// What the rounds of a search have written so far, and how many entries of it each author made.
#[derive(Drop)]
pub struct Written<S> {
    pub history: History<S>,
    pub counts: BTreeMap<u32, u32>,
    ghost counted: { AreCountsOf counts history.entries },
}
