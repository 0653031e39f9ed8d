//! The output to a look-up: the value that a site's data have for a key, or why they have none.
ghost use Rattle.std.specs.Prelude.{◌≡◌, false, IfOk};
ghost use Rattle.json_values.specs.ValueForm.{form};
ghost use Rattle.pp_values.specs.Views.{view};
ghost use Rattle.serde_json.specs.View.{view as json_view};
ghost use Rattle.serde_json.specs.Written.{compact_text, has_float};
ghost use Rattle.command_outputs.specs.Outputs.{looked_up_output};
ghost use Rattle.command_outputs.specs.Lines.{line};

use crate::compiled::fault_line;
use crate::lines::line;
use crate::output::Output;
use compile_core::look_up;
use hiera_merge::Merge;
use json_values::value_form;
use pp_values::{Memory, Stop, Text, Value};
use serde_json::Value as Json;
use site_bundle::Site;
use std::alloc::Global;

/// The output for a node and a key of a site.
pub fn lookup_output(
    alloc: Global,
    site: &Site,
    node: &str,
    key: &str,
    merge: Option<Merge>,
) -> Result<Output, Memory>
    ensures { IfOk result (λ output. output ≡ looked_up_output site.now node.now key.now merge) }
{
    let node = Text::from_str(alloc, node)?;
    let key = Text::from_str(alloc, key)?;
    match look_up(alloc, site, &node, &key, merge) {
        Ok(value) => Ok(Output::Done(value_line(alloc, &value)?)),
        Err(Stop::Fault(fault)) => Ok(Output::Fault(fault_line(alloc, &fault)?)),
        Err(Stop::Memory) => Err(Memory),
    }
}

/// The form of the value on one line.
#[tactic(auto, using(json_values::proofs::Floats::form_no_float))]
fn value_line(alloc: Global, value: &Value) -> Result<Text, Memory>
    ensures { IfOk result (λ text. text ≡ line (compact_text (form (view value.now)))) }
{
    let form = value_form(alloc, value)?;
    json_line(alloc, &form)
}

fn json_line(alloc: Global, json: &Json) -> Result<Text, Memory>
    requires { has_float (json_view json.now) ≡ false }
    ensures { IfOk result (λ text. text ≡ line (compact_text (json_view json.now))) }
{
    line(alloc, Text::new(json.to_string(alloc)?))
}
