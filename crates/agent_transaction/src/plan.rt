ghost use Rattle.std.specs.Prelude.{◌≡◌, [], ◌∷◌, length, MatchOption};

use crate::planned::Planned;
use std::marker::Model;

/// The resources that are still to have their turns, in their order.
#[derive(Drop)]
pub struct Plan {
    /// From the last one to the next one.
    behind: Vec<Planned>,
}

impl Model for Plan {
    ghost use Rattle.std.specs.Prelude.{List, reverse};
    ghost use Rattle.std.specs.Coded.{coded_list};
    ghost use Rattle.agent_transaction.specs.declared.planned.Planned.{Planned as Seen};
    ghost use Rattle.agent_transaction.specs.contracts.planned.Planned as planned;

    ghost Value = { List Seen };

    ghost coded = { coded_list planned.the_row.coded };

    ghost view = { λ p. reverse p.behind.items };
}

impl Plan {
    #[tactic(auto, using(crate::proofs::PlanLemmas::twice))]
    pub fn from_vec(plan: Vec<Planned>) -> Plan
        ensures { result ≡ plan.items }
    {
        let mut behind = plan;
        behind.reverse();
        Plan { behind }
    }

    #[tactic(auto, using(crate::proofs::PlanLemmas::same_length))]
    pub fn len(&self) -> usize
        ensures { result ≡ length self.now }
    {
        self.behind.len()
    }

    /// All of them, in their order.
    pub fn into_vec(self) -> Vec<Planned>
        ensures { result.items ≡ self }
    {
        let mut plan = self.behind;
        plan.reverse();
        plan
    }

    /// Takes the next one.
    pub fn take(&mut self) -> Option<Planned>
        ensures { MatchOption result ((self.old ≡ []) × (self.new ≡ [])) (λ p. self.old ≡ p ∷ self.new) }
    {
        self.behind.pop()
    }
}
