//! What a collector takes of the sets that the other nodes export.
ghost use Rattle.std.specs.Prelude.{◌≡◌, option_copied};
ghost use Rattle.defined_types.specs.ImportPlaces as placed;
ghost use Rattle.defined_types.specs.Rounds as spec;
ghost use Rattle.eval_world.specs.Outcomes.{Gives, same};

use class_eval::Evaluator;
use export_store::{ExportPlace, Version};
use pp_values::{Stop, Text};
use res_core::Exported;
use std::alloc::Global;

/// Has a collector import what it finds. `added` says whether it added something before. Where all that it finds has
/// some tag, only what has that tag is looked at.
#[tactic(auto, using(crate::proofs::Tagged::tagged_alone))]
pub fn import_all(
    alloc: Global,
    evaluator: &mut Evaluator<'_>,
    collector: u32,
    added: bool,
    sets: &Version,
    node: &Text,
) -> Result<bool, Stop>
    ensures world { Gives same (spec.import_all collector added node.now sets.now evaluator.old.world)
        result evaluator.new.world }
    ensures node { evaluator.new.node ≡ evaluator.old.node }
    ensures looks { evaluator.new.looks ≡ evaluator.old.looks }
{
    match evaluator.imports(collector) {
        None => Ok(added),
        Some(kind) => {
            let tag = evaluator.needed_tag(collector);
            let places = sets.exported(alloc, kind, tag, node)?;
            import_places(evaluator, collector, added, sets, places.as_slice())
        }
    }
}

#[tactic(auto, unfolding(crate::specs::Rounds::take_imports))]
fn import_places(
    evaluator: &mut Evaluator<'_>,
    collector: u32,
    before: bool,
    sets: &Version,
    places: &[ExportPlace],
) -> Result<bool, Stop>
    ensures world { Gives same
        (spec.take_imports collector before (placed.all_placed_at sets.now places.now) evaluator.old.world)
        result evaluator.new.world }
    ensures node { evaluator.new.node ≡ evaluator.old.node }
    ensures looks { evaluator.new.looks ≡ evaluator.old.looks }
{
    let mut added = before;
    let mut left = places;
    while let [place, after @ ..] = left {
        if let Some(exported) = exported_at(sets, place) {
            let more = evaluator.import_match(collector, &place.node, place.place, exported)?;
            added = more || added;
        }
        left = after;
    }
    Ok(added)
}

fn exported_at<'a>(sets: &'a Version, place: &ExportPlace) -> Option<&'a Exported>
    ensures { option_copied result ≡ placed.exported_at sets.now place.now }
{
    match sets.get(&place.node) {
        Some(set) => set.items.get(place.place as usize),
        None => None,
    }
}
