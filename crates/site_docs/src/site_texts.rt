//! Sites as text.
ghost use Rattle.std.specs.Prelude.{◌≡◌, IfOk, OnOk};
ghost use Rattle.serde_json.specs.Data.{no_members};
ghost use Rattle.serde_json.specs.View.{view as json_view, members_view};
ghost use Rattle.json_values.specs.ValueForm.{put_all};
ghost use Rattle.hiera_config.specs.Keeping.{filed as data_filed};
ghost use Rattle.site_bundle.specs.Listing.{filed, listed};
ghost use Rattle.site_docs.specs.SiteText.{site_object as object_of_site, file_settings, file_members, site_data};
ghost use Rattle.site_docs.specs.SiteText.{site_text};

use hiera_config::DataFile;
use json_documents::json_text;
use json_values::value_form;
use pp_tree::ManifestFile;
use pp_values::{Memory, Text, Value};
use serde_json::{Map, Value as Json, json};
use site_bundle::{Site, data_of};
use std::alloc::{AllocError, Global};
use std::collections::BTreeMap;

/// The site as one line of compact JSON, without a line feed at its end.
#[tactic(auto, using(crate::proofs::Floats::site_no_float))]
pub fn site_text(alloc: Global, site: &Site) -> Result<Text, Memory>
    ensures { IfOk result (λ t. t ≡ site_text site.now) }
{
    let form = site_form(alloc, site)?;
    json_text(alloc, &form)
}

/// The site as JSON.
pub(crate) fn site_form(alloc: Global, site: &Site) -> Result<Json, Memory>
    ensures { IfOk result (λ j. json_view j ≡ site_data site.now) }
{
    let files = Json::Object(file_forms(alloc, site)?);
    let nodes = Json::Object(node_forms(alloc, site.nodes().as_map())?);
    Ok(site_object(alloc, files, nodes)?)
}

#[tactic(auto, unfolding(crate::specs::SiteText::site_object))]
fn site_object(alloc: Global, files: Json, nodes: Json) -> Result<Json, AllocError>
    ensures { IfOk result (λ j. json_view j ≡ object_of_site (json_view files) (json_view nodes)) }
{
    json!(in alloc; {"files": files, "nodes": nodes})
}

/// The texts of all files.
fn file_forms(alloc: Global, site: &Site) -> Result<Map<String, Json>, Memory>
    ensures { IfOk result (λ m. members_view m.entries ≡ file_members site.now) }
{
    let mut members = Map::new(alloc);
    put_manifests(alloc, site.manifests().as_map(), &mut members)?;
    put_data(alloc, data_of(site).as_map(), &mut members)?;
    Ok(members)
}

fn put_manifests(
    alloc: Global,
    manifests: &BTreeMap<Text, ManifestFile>,
    members: &mut Map<String, Json>,
) -> Result<(), Memory>
    ensures { OnOk result (members_view members.new.entries
        ≡ put_all (file_settings (filed manifests.now.entries)) (members_view members.old.entries)) }
{
    for (path, file) in manifests {
        let text = Json::String(String::from_str(alloc, file.text.as_str())?);
        serde_json::put(members, alloc, path.as_str(), text)?;
    }
    Ok(())
}

fn put_data(
    alloc: Global,
    files: &BTreeMap<Text, DataFile>,
    members: &mut Map<String, Json>,
) -> Result<(), Memory>
    ensures { OnOk result (members_view members.new.entries
        ≡ put_all (file_settings (data_filed files.now.entries)) (members_view members.old.entries)) }
{
    for (path, file) in files {
        let text = Json::String(String::from_str(alloc, file.text.as_str())?);
        serde_json::put(members, alloc, path.as_str(), text)?;
    }
    Ok(())
}

fn node_forms(alloc: Global, nodes: &BTreeMap<Text, Value>) -> Result<Map<String, Json>, Memory>
    ensures { IfOk result (λ m. members_view m.entries ≡ put_all (listed nodes.now.entries) no_members) }
{
    let mut members = Map::new(alloc);
    for (name, facts) in nodes {
        let form = value_form(alloc, facts)?;
        serde_json::put(&mut members, alloc, name.as_str(), form)?;
    }
    Ok(members)
}
