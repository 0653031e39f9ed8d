//! Attributes by name.
ghost use Rattle.std.specs.Prelude.{◌≡◌, [], IfOk, IsTrue};
ghost use Rattle.eval_classes.specs.Attributes as spec;
ghost use Rattle.pp_values.specs.Rising.{is_rising};
ghost use Rattle.pp_values.specs.Settings.{setting_names};
ghost use Rattle.pp_values.specs.Views.{view};
ghost use Rattle.res_core.specs.AttributeViews.{setting};

use eval_world::Evaluated;
use pp_values::{Memory, Text, Value};
use res_core::{Attribute, Attributes};
use std::alloc::Global;
use std::collections::BTreeMap;

/// Whether a value is not Undef.
pub fn is_value(value: &Value) -> bool
    ensures { result ≡ spec.is_value (view value.now) }
{
    match value {
        Value::Undef => false,
        _ => true,
    }
}

/// The attributes of an ordered map.
pub fn attributes_from(alloc: Global, set: BTreeMap<Text, Evaluated>) -> Result<Attributes, Memory>
    requires { IsTrue (is_rising (setting_names set.entries)) }
    ensures { IfOk result (λ a. a ≡ set.entries) }
{
    let mut items = Vec::new(alloc);
    for entry in set {
        items.push(attribute_of(entry))?;
    }
    Ok(Attributes::from_vec(items))
}

fn attribute_of(entry: (Text, Evaluated)) -> Attribute
    ensures { setting result ≡ entry }
{
    let (name, value) = entry;
    Attribute {
        name,
        value: value.into_value(),
    }
}
