//! What a node exports, as JSON and as text.
ghost use Rattle.std.specs.Prelude.{◌≡◌, map, IfOk};
ghost use Rattle.serde_json.specs.View.{view as json_view};
ghost use Rattle.site_docs.specs.FaultText.{place_text as text_of_place};
ghost use Rattle.site_docs.specs.JournalText.{export_object as object_of_export, export_data, set_data, set_text};

use crate::fault_texts::write_place;
use crate::resource_forms::attributes_form;
use json_documents::{json_text, text_forms};
use pp_values::{Memory, Place, Text, kind_text};
use res_core::{ExportSet, Exported};
use serde_json::{Value as Json, json};
use std::alloc::{AllocError, Global};

/// What a node exports, as its entry in a journal has it, without a line feed.
#[tactic(auto, using(crate::proofs::Floats::set_no_float))]
pub fn set_text(alloc: Global, set: &ExportSet) -> Result<Text, Memory>
    ensures { IfOk result (λ t. t ≡ set_text set.now) }
{
    let form = set_form(alloc, set)?;
    json_text(alloc, &form)
}

fn set_form(alloc: Global, set: &ExportSet) -> Result<Json, Memory>
    ensures { IfOk result (λ j. json_view j ≡ set_data set.now) }
{
    Ok(Json::Array(export_forms(alloc, set.items.as_slice())?))
}

/// The JSON of each exported resource.
pub fn export_forms(alloc: Global, exports: &[Exported]) -> Result<Vec<Json>, Memory>
    ensures { IfOk result (λ v. map json_view v.items ≡ map export_data exports.now) }
{
    let mut values = Vec::new(alloc);
    let mut left = exports;
    while let [exported, after @ ..] = left {
        values.push(export_form(alloc, exported)?)?;
        left = after;
    }
    Ok(values)
}

#[tactic(auto, unfolding(crate::specs::JournalText::export_data))]
fn export_form(alloc: Global, exported: &Exported) -> Result<Json, Memory>
    ensures { IfOk result (λ j. json_view j ≡ export_data exported.now) }
{
    let at = place_text(alloc, &exported.node_place)?;
    let item = exported.item.as_resource();
    let attributes = attributes_form(alloc, &item.attributes)?;
    let tags = Json::Array(text_forms(alloc, item.tags.as_slice())?);
    let kind = kind_text(alloc, &item.kind)?;
    let title = item.title.as_str();
    Ok(export_object(alloc, at.as_str(), attributes, tags, title, kind.as_str())?)
}

#[tactic(auto, unfolding(crate::specs::JournalText::export_object))]
fn export_object(
    alloc: Global,
    at: &str,
    attributes: Json,
    tags: Json,
    title: &str,
    kind: &str,
) -> Result<Json, AllocError>
    ensures { IfOk result (λ j. json_view j
        ≡ object_of_export at.now (json_view attributes) (json_view tags) title.now kind.now) }
{
    json!(in alloc; {"at": at, "attrs": attributes, "tags": tags, "title": title, "type": kind})
}

fn place_text(alloc: Global, place: &Place) -> Result<Text, Memory>
    ensures { IfOk result (λ t. t ≡ text_of_place place.now) }
{
    let mut out = String::new(alloc);
    write_place(&mut out, place)?;
    Ok(Text::new(out))
}
