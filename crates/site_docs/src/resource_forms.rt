//! What catalogs and journals say of a resource alike.
ghost use Rattle.std.specs.Prelude.{◌≡◌, IfOk};
ghost use Rattle.serde_json.specs.Data.{object};
ghost use Rattle.serde_json.specs.View.{view as json_view};
ghost use Rattle.json_values.specs.ValueForm.{setting_members};

use json_values::value_form;
use pp_values::Memory;
use res_core::Attributes;
use serde_json::{Map, Value as Json};
use std::alloc::Global;

/// The attributes as an object: each name with the form of its value.
pub(crate) fn attributes_form(alloc: Global, attributes: &Attributes) -> Result<Json, Memory>
    ensures { IfOk result (λ j. json_view j ≡ object (setting_members attributes.now)) }
{
    let mut members = Map::new(alloc);
    let mut left = attributes.as_slice();
    while let [attribute, after @ ..] = left {
        let form = value_form(alloc, &attribute.value)?;
        serde_json::put(&mut members, alloc, attribute.name.as_str(), form)?;
        left = after;
    }
    Ok(Json::Object(members))
}
