//! Catalogs as text.
ghost use Rattle.std.specs.Prelude.{◌≡◌, ◌∷◌, [], ◌++◌, map, IfOk, OnOk};
ghost use Rattle.serde_json.specs.Data.{string, array, object};
ghost use Rattle.serde_json.specs.View.{items_of};
ghost use Rattle.json_values.specs.ValueForm.{setting_members};
ghost use Rattle.pp_values.specs.Words.{kind_text as text_of_kind};
ghost use Rattle.json_documents.specs.Tokens.{data_tokens, index_data};
ghost use Rattle.site_docs.specs.DocumentLaws.{CatalogsAreToldApart};
ghost use Rattle.site_docs.specs.CatalogText.{held_data, edge_data, catalog_data, catalog_text};

use json_documents::{JsonOutput, ended, write_value};
use pp_values::{Kind, Memory, Text, kind_text};
use res_core::{Attributes, Catalog, Edge, Held};
use std::alloc::{AllocError, Global};

/// The catalog as a document: one line of compact JSON, with a line feed at its end.
pub fn write_catalog(alloc: Global, catalog: &Catalog) -> Result<Text, Memory>
    ensures { IfOk result (λ t. t ≡ catalog_text catalog.now ++ 10 ∷ []) }
{
    ended(alloc, catalog_text(alloc, catalog)?)
}

/// The same without the line feed, as a part of a reply.
#[tactic(auto, using(json_documents::proofs::Outlines::printed_data))]
pub fn catalog_text(alloc: Global, catalog: &Catalog) -> Result<Text, Memory>
    ensures { IfOk result (λ t. t ≡ catalog_text catalog.now) }
{
    let mut out = JsonOutput::new(alloc)?;
    put_catalog(alloc, &mut out, catalog)?;
    Ok(out.into_text())
}

/// No two catalogs have one text, but for their log lines, which stand in no document.
pub fn catalogs_are_told_apart()
    ensures { CatalogsAreToldApart }
{}

#[tactic(auto, unfolding(crate::specs::CatalogText::catalog_data, crate::specs::CatalogText::catalog_object))]
fn put_catalog(alloc: Global, out: &mut JsonOutput, catalog: &Catalog) -> Result<(), Memory>
    ensures { OnOk result (out.new ≡ out.old ++ data_tokens (catalog_data catalog.now)) }
{
    out.begin_object()?;
    out.key("catalog")?;
    out.index(1)?;
    out.key("edges")?;
    write_edges(out, catalog.edges().as_slice())?;
    out.key("node")?;
    out.string(catalog.node().as_str())?;
    out.key("resources")?;
    write_resources(alloc, out, catalog.resources().as_slice())?;
    out.end_object()?;
    Ok(())
}

fn write_edges(out: &mut JsonOutput, edges: &[Edge]) -> Result<(), AllocError>
    ensures { OnOk result (out.new ≡ out.old ++ data_tokens (array (items_of (map edge_data edges.now)))) }
{
    out.begin_array()?;
    let mut left = edges;
    while let [edge, after @ ..] = left {
        write_edge(out, edge)?;
        left = after;
    }
    out.end_array()?;
    Ok(())
}

#[tactic(auto, unfolding(crate::specs::CatalogText::edge_data))]
fn write_edge(out: &mut JsonOutput, edge: &Edge) -> Result<(), AllocError>
    ensures { OnOk result (out.new ≡ out.old ++ data_tokens (edge_data edge.now)) }
{
    out.begin_array()?;
    out.index(edge.from)?;
    out.index(edge.to)?;
    out.boolean(edge.signal)?;
    out.end_array()?;
    Ok(())
}

fn write_resources(alloc: Global, out: &mut JsonOutput, resources: &[Held]) -> Result<(), Memory>
    ensures { OnOk result (out.new ≡ out.old ++ data_tokens (array (items_of (map held_data resources.now)))) }
{
    out.begin_array()?;
    let mut left = resources;
    while let [held, after @ ..] = left {
        write_held(alloc, out, held)?;
        left = after;
    }
    out.end_array()?;
    Ok(())
}

fn write_held(alloc: Global, out: &mut JsonOutput, held: &Held) -> Result<(), Memory>
    ensures { OnOk result (out.new ≡ out.old ++ data_tokens (held_data held.now)) }
{
    let item = held.item.as_resource();
    out.begin_object()?;
    out.key("attrs")?;
    write_attributes(out, &item.attributes)?;
    out.key("in")?;
    write_indexes(out, held.inside.as_slice())?;
    out.key("tags")?;
    write_texts(out, item.tags.as_slice())?;
    out.key("title")?;
    out.string(item.title.as_str())?;
    out.key("type")?;
    write_kind(alloc, out, &item.kind)?;
    out.end_object()?;
    Ok(())
}

/// The attributes as an object: each name with the form of its value.
fn write_attributes(out: &mut JsonOutput, attributes: &Attributes) -> Result<(), AllocError>
    ensures { OnOk result (out.new ≡ out.old ++ data_tokens (object (setting_members attributes.now))) }
{
    out.begin_object()?;
    let mut left = attributes.as_slice();
    while let [attribute, after @ ..] = left {
        out.key(attribute.name.as_str())?;
        write_value(out, &attribute.value)?;
        left = after;
    }
    out.end_object()?;
    Ok(())
}

fn write_indexes(out: &mut JsonOutput, indexes: &[u32]) -> Result<(), AllocError>
    ensures { OnOk result (out.new ≡ out.old ++ data_tokens (array (items_of (map index_data indexes.now)))) }
{
    out.begin_array()?;
    let mut left = indexes;
    while let [index, after @ ..] = left {
        out.index(*index)?;
        left = after;
    }
    out.end_array()?;
    Ok(())
}

fn write_texts(out: &mut JsonOutput, texts: &[Text]) -> Result<(), AllocError>
    ensures { OnOk result (out.new ≡ out.old ++ data_tokens (array (items_of (map string texts.now)))) }
{
    out.begin_array()?;
    let mut left = texts;
    while let [text, after @ ..] = left {
        out.string(text.as_str())?;
        left = after;
    }
    out.end_array()?;
    Ok(())
}

/// The kind as it is printed, `Web::Vhost` for `web::vhost`.
fn write_kind(alloc: Global, out: &mut JsonOutput, kind: &Kind) -> Result<(), Memory>
    ensures { OnOk result (out.new ≡ out.old ++ data_tokens (string (text_of_kind kind.now))) }
{
    let text = kind_text(alloc, kind)?;
    out.string(text.as_str())?;
    Ok(())
}
