//! The data of the site.
ghost use Rattle.eval_world.specs.Data as spec;
ghost use Rattle.eval_world.specs.Outcomes.{Gives, same};

use crate::evaluated::Evaluated;
use crate::world::World;
use hiera_lookup::lookup;
use hiera_merge::Merge;
use pp_values::{Place, Stop, Text};
use scope_core::ScopeId;

impl<'a> World<'a> {
    /// The value that the data have for a key, with the variables of a scope, by the merge, or else by the one that
    /// `lookup_options` gives for the key. None where no source has it. A fault stands at the place.
    #[tactic(auto, unfolding(crate::specs::Data::look_up), using(crate::proofs::Placed::refused_step))]
    pub fn look_up(
        &self,
        scope: ScopeId,
        key: &Text,
        merge: Option<Merge>,
        at: &Place,
    ) -> Result<Option<Evaluated>, Stop>
        ensures { Gives same (spec.look_up scope.number key.now merge at.now self.now) result self.now }
    {
        let site_data = self.environment.site_data();
        let heap = self.heap.alloc();
        match lookup(heap, site_data, &self.scopes, scope, key, merge, at)? {
            Some(value) => Ok(Some(Evaluated::new(value))),
            None => Ok(None),
        }
    }
}
