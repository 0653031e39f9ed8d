//! Sites out of their JSON.
ghost use Rattle.std.specs.Prelude.{◌≡◌, IfOk};
ghost use Rattle.pp_values.specs.PairLists.{fact_views};
ghost use Rattle.pp_values.specs.Rising.{is_rising, precedes as comes_before};
ghost use Rattle.pp_values.specs.Settings.{setting_names};
ghost use Rattle.serde_json.specs.View.{view as json_view, members_view};
ghost use Rattle.site_bundle.specs.Given.{has_main, are_short};
ghost use Rattle.journal_reading.specs.Journals.{paths_of};
ghost use Rattle.journal_reading.specs.SiteReading.{texts_said, are_files, files_said, listed_said, nodes_said};
ghost use Rattle.journal_reading.specs.SiteReading.{site_said};

use crate::facts::facts_said;
use pp_values::{FactPairs, MAIN_MANIFEST, Memory, Text, TextPairs, Value};
use serde_json::{Map, Value as Json};
use site_bundle::{Site, make_site};
use std::alloc::Global;

/// The site that the JSON says.
#[tactic(auto, unfolding(crate::specs::SiteReading::site_said))]
pub fn site_said(alloc: Global, json: &Json) -> Result<Option<Site>, Memory>
    ensures { IfOk result (λ o. o ≡ site_said (json_view json.now)) }
{
    let Some(files) = files_said(alloc, json)? else {
        return Ok(None);
    };
    let Some(nodes) = nodes_said(alloc, json)? else {
        return Ok(None);
    };
    Ok(Some(make_site(alloc, files, nodes)?))
}

fn files_said(alloc: Global, json: &Json) -> Result<Option<TextPairs>, Memory>
    ensures { IfOk result (λ o. o ≡ files_said (json_view json.now)) }
{
    let Some(members) = json.get("files").and_then(Json::as_object) else {
        return Ok(None);
    };
    let Some(files) = texts_said(alloc, members)? else {
        return Ok(None);
    };
    if are_files(files.as_slice()) {
        Ok(Some(files))
    } else {
        Ok(None)
    }
}

/// Each path with its text.
fn texts_said(alloc: Global, members: &Map<String, Json>) -> Result<Option<TextPairs>, Memory>
    ensures { IfOk result (λ o. o ≡ texts_said (members_view members.now.entries)) }
{
    let mut files = TextPairs::new(alloc);
    for (path, content) in members {
        let Some(text) = content.as_str() else {
            return Ok(None);
        };
        let path = Text::from_str(alloc, path.as_str())?;
        let text = Text::from_str(alloc, text)?;
        files.push((path, text))?;
    }
    Ok(Some(files))
}

fn are_files(files: &[(Text, Text)]) -> bool
    ensures { result ≡ are_files files.now }
{
    paths_rise(files) && has_main(files) && are_short(files)
}

fn paths_rise(files: &[(Text, Text)]) -> bool
    ensures { result ≡ is_rising (paths_of files.now) }
{
    let mut left = files;
    while let [(path, _), after @ ..] = left {
        if !path_precedes(path, after) {
            return false;
        }
        left = after;
    }
    true
}

fn path_precedes(path: &Text, files: &[(Text, Text)]) -> bool
    ensures { result ≡ comes_before path.now (paths_of files.now) }
{
    match files {
        [(next, _), ..] => path.compare(next).is_lt(),
        [] => true,
    }
}

fn has_main(files: &[(Text, Text)]) -> bool
    ensures { result ≡ has_main files.now }
{
    let mut left = files;
    while let [(path, _), after @ ..] = left {
        if MAIN_MANIFEST == path.as_str() {
            return true;
        }
        left = after;
    }
    false
}

/// Whether places can count the lines of each file.
fn are_short(files: &[(Text, Text)]) -> bool
    ensures { result ≡ are_short files.now }
{
    let mut left = files;
    while let [(_, text), after @ ..] = left {
        if text.as_str().len() >= 4_294_967_295 {
            return false;
        }
        left = after;
    }
    true
}

fn nodes_said(alloc: Global, json: &Json) -> Result<Option<FactPairs>, Memory>
    ensures { IfOk result (λ o. o ≡ nodes_said (json_view json.now)) }
{
    let Some(members) = json.get("nodes").and_then(Json::as_object) else {
        return Ok(None);
    };
    let Some(nodes) = listed_said(alloc, members)? else {
        return Ok(None);
    };
    if names_rise(nodes.as_slice()) {
        Ok(Some(nodes))
    } else {
        Ok(None)
    }
}

/// Each name with its facts.
fn listed_said(alloc: Global, members: &Map<String, Json>) -> Result<Option<FactPairs>, Memory>
    ensures { IfOk result (λ o. o ≡ listed_said (members_view members.now.entries)) }
{
    let mut nodes = FactPairs::new(alloc);
    for (name, facts) in members {
        let Some(facts) = facts_said(alloc, facts)? else {
            return Ok(None);
        };
        let name = Text::from_str(alloc, name.as_str())?;
        nodes.push(name, facts)?;
    }
    Ok(Some(nodes))
}

fn names_rise(nodes: &[(Text, Value)]) -> bool
    ensures { result ≡ is_rising (setting_names (fact_views nodes.now)) }
{
    let mut left = nodes;
    while let [(name, _), after @ ..] = left {
        if !name_precedes(name, after) {
            return false;
        }
        left = after;
    }
    true
}

fn name_precedes(name: &Text, nodes: &[(Text, Value)]) -> bool
    ensures { result ≡ comes_before name.now (setting_names (fact_views nodes.now)) }
{
    match nodes {
        [(next, _), ..] => name.compare(next).is_lt(),
        [] => true,
    }
}
