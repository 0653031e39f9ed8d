ghost use Rattle.std.specs.Prelude.{◌≡◌, [], ◌∷◌, length, MatchOption};

use crate::want::Want;
use std::marker::Model;

/// The properties that are still to be set right, in their order.
///
/// A contract sees each name with what its value says.
#[derive(Drop)]
pub struct Wants {
    /// From the last one to the next one.
    behind: Vec<Want>,
}

impl Model for Wants {
    ghost use Rattle.std.specs.Prelude.{List, reverse};
    ghost use Rattle.pp_values.specs.Settings.{Setting, coded_settings};

    ghost Value = { List Setting };

    ghost coded = { coded_settings };

    ghost view = { λ w. reverse w.behind.items };
}

impl Wants {
    #[tactic(auto, using(crate::proofs::WantLemmas::twice))]
    pub fn from_vec(wants: Vec<Want>) -> Wants
        ensures { result ≡ wants.items }
    {
        let mut behind = wants;
        behind.reverse();
        Wants { behind }
    }

    #[tactic(auto, using(crate::proofs::WantLemmas::same_length))]
    pub fn len(&self) -> usize
        ensures { result ≡ length self.now }
    {
        self.behind.len()
    }

    /// Takes the next one.
    pub fn take(&mut self) -> Option<Want>
        ensures { MatchOption result ((self.old ≡ []) × (self.new ≡ [])) (λ w. self.old ≡ w ∷ self.new) }
    {
        self.behind.pop()
    }
}
