ghost use Rattle.std.specs.Prelude.{◌≡◌, option_map, IfOk};
ghost use Rattle.pp_values.specs.Views.{view as value_view};
ghost use Rattle.serde_json.specs.View.{view};
ghost use Rattle.site_bundle.specs.GivenFacts.{given_facts};

use json_values::{DataStop, Numbers, from_data};
use pp_values::{Memory, Value};
use serde_json::Value as Json;
use std::alloc::Global;

/// The facts that a bundle gives: a JSON object. `None` where the JSON is anything else.
#[tactic(auto, using(crate::proofs::FactSteps::object_gives, crate::proofs::FactSteps::object_has_value))]
pub fn given_facts(alloc: Global, facts: &Json) -> Result<Option<Value>, Memory>
    ensures { IfOk result (λ o. option_map value_view o ≡ given_facts (view facts.now)) }
{
    match facts {
        Json::Object(_) => match from_data(alloc, facts, Numbers::Lenient) {
            Ok(value) => Ok(Some(value)),
            Err(DataStop::Number) => Ok(None),
            Err(DataStop::Memory) => Err(Memory),
        },
        Json::Null => Ok(None),
        Json::Bool(_) => Ok(None),
        Json::Number(_) => Ok(None),
        Json::String(_) => Ok(None),
        Json::Array(_) => Ok(None),
    }
}
