//! Catalogs out of their texts.
ghost use Rattle.std.specs.Prelude.{◌≡◌, IfOk, IsTrue, option_map};
ghost use Rattle.std.specs.List.{list_all};
ghost use Rattle.serde_json.specs.View.{items_view, view};
ghost use Rattle.res_core.specs.Catalogs.{has_form};
ghost use Rattle.json_documents.specs.LinesOfText.{Answers, ReadsDocument, read_one_line};
ghost use Rattle.catalog_reading.specs.CatalogDocuments.{IsCatalogText};
ghost use Rattle.catalog_reading.specs.CatalogReading.{parts_said, if_whole, catalog_said, catalog_written, catalog_in};

use crate::checks::is_whole;
use crate::numbers::edges_at;
use crate::resources::resources_at;
use json_documents::{DocStop, cut_line, read_json};
use pp_values::{Memory, Text};
use res_core::{Catalog, EdgeList, HeldList, LogLines};
use serde_json::Value as Json;
use site_docs::catalog_text;
use std::alloc::Global;

/// The catalog that this text is written for. It has no log lines, since these are no part of the text.
pub fn read_catalog(alloc: Global, text: &str) -> Result<Catalog, DocStop>
    ensures { ReadsDocument IsCatalogText text.now result }
{
    read_whole(alloc, text)
}

fn read_whole(alloc: Global, text: &str) -> Result<Catalog, DocStop>
    ensures { Answers result (read_one_line catalog_in text.now) }
{
    let Some((line, after)) = cut_line(text) else {
        return Err(DocStop::Bad(1));
    };
    let Some(catalog) = catalog_in(alloc, line)? else {
        return Err(DocStop::Bad(1));
    };
    if after.is_empty() {
        Ok(catalog)
    } else {
        Err(DocStop::Bad(2))
    }
}

/// The catalog whose line this is.
fn catalog_in(alloc: Global, line: &str) -> Result<Option<Catalog>, Memory>
    ensures { IfOk result (λ o. o ≡ catalog_in line.now) }
{
    match read_json(alloc, line)? {
        Some(json) => catalog_written(alloc, line, &json),
        None => Ok(None),
    }
}

/// The catalog that the JSON says, where this is its line.
fn catalog_written(alloc: Global, line: &str, json: &Json) -> Result<Option<Catalog>, Memory>
    ensures { IfOk result (λ o. o ≡ catalog_written line.now (view json.now)) }
{
    match catalog_said(alloc, json)? {
        Some(catalog) => {
            if catalog_text(alloc, &catalog)?.is(line) {
                Ok(Some(catalog))
            } else {
                Ok(None)
            }
        }
        None => Ok(None),
    }
}

#[tactic(auto, using(crate::proofs::CatalogsRead::resources_formed))]
fn catalog_said(alloc: Global, json: &Json) -> Result<Option<Catalog>, Memory>
    ensures { IfOk result (λ o. o ≡ catalog_said (view json.now)) }
{
    match parts_said(alloc, json)? {
        Some((node, (resources, edges))) => whole(alloc, node, resources, edges),
        None => Ok(None),
    }
}

#[tactic(auto, unfolding(crate::specs::CatalogReading::parts_said))]
fn parts_said(alloc: Global, json: &Json) -> Result<Option<(Text, (HeldList, EdgeList))>, Memory>
    ensures said { IfOk result (λ o. o ≡ parts_said (view json.now)) }
{
    let Some(node) = json.get("node").and_then(Json::as_str) else {
        return Ok(None);
    };
    let Some(resources) = resources_at(alloc, json)? else {
        return Ok(None);
    };
    let Some(edges) = edges_at(alloc, json)? else {
        return Ok(None);
    };
    let node = Text::from_str(alloc, node)?;
    Ok(Some((node, (resources, edges))))
}

/// The catalog of these resources and edges, where they are those of one.
fn whole(
    alloc: Global,
    node: Text,
    resources: HeldList,
    edges: EdgeList,
) -> Result<Option<Catalog>, Memory>
    requires { IsTrue (list_all has_form resources) }
    ensures { IfOk result (λ o. o ≡ if_whole (node, (resources, edges))) }
{
    if is_whole(alloc, resources.as_slice(), edges.as_slice())? {
        let log = LogLines::new(alloc);
        Ok(Some(Catalog::new(node, resources, edges, log)))
    } else {
        Ok(None)
    }
}
