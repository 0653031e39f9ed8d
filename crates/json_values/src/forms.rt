//! Which values have a form.
ghost use Rattle.serde_json.specs.View.{view as json_view};
ghost use Rattle.pp_values.specs.Views.{view};
ghost use Rattle.json_values.specs.Forms.{form_of, IsForm};

use crate::stops::FormStop;
use crate::value_forms::value_form;
use pp_values::{Value, is_plain_value};
use serde_json::Value as Json;
use std::alloc::Global;

/// The value as JSON. A value with a data type or `default` within has no form.
pub fn to_form(alloc: Global, value: &Value) -> Result<Json, FormStop>
    ensures { IsForm json_view result (form_of (view value.now)) }
{
    if is_plain_value(value) {
        Ok(value_form(alloc, value)?)
    } else {
        Err(FormStop::NoForm)
    }
}
