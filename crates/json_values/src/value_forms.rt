//! Values as JSON.
ghost use Rattle.std.specs.Prelude.{◌≡◌, map, IfOk};
ghost use Rattle.serde_json.specs.Data.{string, no_members};
ghost use Rattle.serde_json.specs.View.{view as json_view, members_view};
ghost use Rattle.pp_values.specs.Datum.{entries_of};
ghost use Rattle.pp_values.specs.Views.{view, views, pair_views};
ghost use Rattle.pp_values.specs.Rising.{precedes as comes_before};
ghost use Rattle.json_values.specs.ValueForm.{is_plain_name as plain_name, first_key, is_plain as plain, plain_settings, put_all, reference_form as form_of_reference, long_form as form_of_long, form, pair_data};

use pp_values::{Memory, Reference, Text, Value};
use serde_json::{Map, Value as Json, json};
use std::alloc::{AllocError, Global};

/// The value as JSON. A data type and `default` have no form, and give `null`.
#[cycle(form)]
pub fn value_form(alloc: Global, value: &Value) -> Result<Json, Memory>
    ensures { IfOk result (λ j. json_view j ≡ form (view value.now)) }
{
    match value {
        Value::Undef => Ok(Json::Null),
        Value::Flag(flag) => Ok(Json::Bool(*flag)),
        Value::Int(number) => Ok(Json::from(*number)),
        Value::Text(text) => text_form(alloc, text),
        Value::List(items) => Ok(Json::Array(list_forms(alloc, items.as_slice())?)),
        Value::Hash(pairs) => {
            let pairs = pairs.as_slice();
            if is_plain(pairs) {
                Ok(Json::Object(member_forms(alloc, pairs)?))
            } else {
                Ok(long_form(alloc, Json::Array(pair_forms(alloc, pairs)?))?)
            }
        }
        Value::Ref(reference) => Ok(reference_form(alloc, reference.get())?),
        Value::Kind(_) => Ok(Json::Null),
        Value::Default => Ok(Json::Null),
    }
}

fn text_form(alloc: Global, text: &Text) -> Result<Json, Memory>
    ensures { IfOk result (λ j. json_view j ≡ string text.now) }
{
    Ok(Json::try_from_str(alloc, text.as_str())?)
}

#[tactic(auto, unfolding(crate::specs::ValueForm::reference_form))]
fn reference_form(alloc: Global, reference: &Reference) -> Result<Json, AllocError>
    ensures { IfOk result (λ j. json_view j ≡ form_of_reference reference.now.kind reference.now.title) }
{
    let kind = reference.kind.as_str();
    let title = reference.title.as_str();
    json!(in alloc; {"__ptype": "Ref", "kind": kind, "title": title})
}

// A hash whose keys are no names in order.
#[tactic(auto, unfolding(crate::specs::ValueForm::long_form))]
fn long_form(alloc: Global, items: Json) -> Result<Json, AllocError>
    ensures { IfOk result (λ j. json_view j ≡ form_of_long (json_view items)) }
{
    json!(in alloc; {"__ptype": "Hash", "__pvalue": items})
}

#[cycle(form)]
fn list_forms(alloc: Global, items: &[Value]) -> Result<Vec<Json>, Memory>
    ensures { IfOk result (λ v. map json_view v.items ≡ map form (views items.now)) }
{
    let mut forms = Vec::new(alloc);
    for item in items {
        forms.push(value_form(alloc, item)?)?;
    }
    Ok(forms)
}

// Each key and its value in turn.
#[cycle(form)]
fn pair_forms(alloc: Global, pairs: &[(Value, Value)]) -> Result<Vec<Json>, Memory>
    ensures { IfOk result (λ v. map json_view v.items ≡ pair_data (pair_views pairs.now)) }
{
    let mut forms = Vec::new(alloc);
    for (key, value) in pairs {
        forms.push(value_form(alloc, key)?)?;
        forms.push(value_form(alloc, value)?)?;
    }
    Ok(forms)
}

// The pairs up to the first key that is no text.
#[cycle(form)]
fn member_forms(alloc: Global, pairs: &[(Value, Value)]) -> Result<Map<String, Json>, Memory>
    ensures { IfOk result (λ m. members_view m.entries ≡ put_all (plain_settings (entries_of (pair_views pairs.now))) no_members) }
{
    let mut members = Map::new(alloc);
    for (key, value) in pairs {
        let Value::Text(name) = key else {
            return Ok(members);
        };
        let form = value_form(alloc, value)?;
        serde_json::put(&mut members, alloc, name.as_str(), form)?;
    }
    Ok(members)
}

/// Whether the keys are texts, none begins with `__p`, and each is below the next.
pub(crate) fn is_plain(pairs: &[(Value, Value)]) -> bool
    ensures { result ≡ plain (entries_of (pair_views pairs.now)) }
{
    let mut left = pairs;
    while let [(key, _), after @ ..] = left {
        let Value::Text(name) = key else {
            return false;
        };
        if !is_plain_name(name.as_str()) || !precedes(name, after) {
            return false;
        }
        left = after;
    }
    true
}

fn is_plain_name(name: &str) -> bool
    ensures { result ≡ plain_name name.now }
{
    !name.starts_with("__p")
}

fn precedes(name: &Text, pairs: &[(Value, Value)]) -> bool
    ensures { result ≡ comes_before name.now (first_key (entries_of (pair_views pairs.now))) }
{
    match pairs {
        [(Value::Text(next), _), ..] => name.compare(next).is_lt(),
        _ => true,
    }
}
