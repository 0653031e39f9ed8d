//! Replies as text.
ghost use Rattle.std.specs.Prelude.{◌≡◌, ◌∷◌, ◌++◌, [], false, IfOk};
ghost use Rattle.serde_json.specs.View.{view as json_view};
ghost use Rattle.serde_json.specs.Written.{compact_text, has_float};
ghost use Rattle.res_core.specs.RequestViews.{asked};
ghost use Rattle.site_docs.specs.ReplyText.{node_of, seen_of, served_text, refused_object as object_of_refused};
ghost use Rattle.site_docs.specs.ReplyText.{full_object as object_of_full, ahead_object as object_of_ahead};
ghost use Rattle.site_docs.specs.ReplyText.{unknown_object as object_of_unknown};
ghost use Rattle.site_docs.specs.ReplyText.{deactivated_object as object_of_deactivated};
ghost use Rattle.site_docs.specs.ReplyText.{deployed_object as object_of_deployed};
ghost use Rattle.site_docs.specs.ReplyText.{reported_object as object_of_reported, memory_object as object_of_memory};
ghost use Rattle.site_docs.specs.ReplyText.{reply_text, reply_line};

use json_documents::json_text;
use pp_values::{Memory, Text};
use res_core::Request;
use serde_json::{Value as Json, json};
use site_core::{Language, Reply, ReplyOf};
use std::alloc::{AllocError, Global};

/// The line that tells what the request was answered, with its line feed. Replies are numbered as their requests are.
pub fn write_reply<L: Language>(
    alloc: Global,
    language: &L,
    index: u32,
    request: &Request,
    reply: &Reply<L>,
) -> Result<Text, Memory>
    ensures { IfOk result (λ t. t ≡ reply_line L.catalog_form L.fault_form index (asked request.now) reply.now) }
{
    let text = reply_text(alloc, language, index, request, reply)?;
    line(alloc, text)
}

fn line(alloc: Global, text: Text) -> Result<Text, Memory>
    ensures { IfOk result (λ t. t ≡ text ++ 10 ∷ []) }
{
    let mut line = text.into_string(alloc)?;
    line.push('\n')?;
    Ok(Text::new(line))
}

#[tactic(auto, unfolding(crate::specs::ReplyText::reply_text))]
fn reply_text<L: Language>(
    alloc: Global,
    language: &L,
    index: u32,
    request: &Request,
    reply: &Reply<L>,
) -> Result<Text, Memory>
    ensures { IfOk result (λ t. t ≡ reply_text L.catalog_form L.fault_form index (asked request.now) reply.now) }
{
    match reply {
        ReplyOf::Served { entry, k, catalog } => {
            let catalog = language.catalog_text(alloc, catalog)?;
            served(alloc, index, *entry, *k, &catalog)
        }
        ReplyOf::Refused { k, fault } => {
            let fault = language.fault_text(alloc, fault)?;
            refused(alloc, index, *k, &fault)
        }
        ReplyOf::HistoryFull { length } => full(alloc, index, *length),
        ReplyOf::SeenAhead { length } => ahead(alloc, index, *length, seen_of(request)),
        ReplyOf::UnknownNode { k } => unknown(alloc, index, *k, node_of(request)),
        ReplyOf::Deactivated { entry } => deactivated(alloc, index, *entry),
        ReplyOf::Deployed { entry } => deployed(alloc, index, *entry),
        ReplyOf::Reported { entry } => reported(alloc, index, *entry),
        ReplyOf::Memory => memory(alloc, index),
    }
}

fn node_of(request: &Request) -> &Text
    ensures { result.now ≡ node_of (asked request.now) }
{
    match request {
        Request::Compile(wanted) => &wanted.node,
        Request::Deactivate(node) => node,
    }
}

fn seen_of(request: &Request) -> u32
    ensures { result ≡ seen_of (asked request.now) }
{
    match request {
        Request::Compile(wanted) => wanted.seen,
        Request::Deactivate(_) => 0,
    }
}

// The catalog's text is JSON already.
#[tactic(auto, unfolding(crate::specs::ReplyText::served_text))]
fn served(alloc: Global, index: u32, entry: u32, k: u32, catalog: &Text) -> Result<Text, Memory>
    ensures { IfOk result (λ t. t ≡ served_text index entry k catalog.now) }
{
    let mut text = String::new(alloc);
    text.push_str("{\"catalog\":")?;
    text.push_str(catalog.as_str())?;
    write!(text, ",\"entry\":{entry},\"k\":{k},\"reply\":{index}}}")?;
    Ok(Text::new(text))
}

#[tactic(auto, using(crate::proofs::Floats::refused_no_float))]
fn refused(alloc: Global, index: u32, k: u32, fault: &Text) -> Result<Text, Memory>
    ensures { IfOk result (λ t. t ≡ compact_text (object_of_refused index k fault.now)) }
{
    let form = refused_object(alloc, index, k, fault.as_str())?;
    json_text(alloc, &form)
}

#[tactic(auto, unfolding(crate::specs::ReplyText::refused_object))]
fn refused_object(alloc: Global, index: u32, k: u32, fault: &str) -> Result<Json, AllocError>
    ensures { IfOk result (λ j. json_view j ≡ object_of_refused index k fault.now) }
{
    json!(in alloc; {"fault": fault, "k": k, "reply": index})
}

#[tactic(auto, using(crate::proofs::Floats::full_no_float))]
fn full(alloc: Global, index: u32, length: u32) -> Result<Text, Memory>
    ensures { IfOk result (λ t. t ≡ compact_text (object_of_full index length)) }
{
    let form = full_object(alloc, index, length)?;
    json_text(alloc, &form)
}

#[tactic(auto, unfolding(crate::specs::ReplyText::full_object))]
fn full_object(alloc: Global, index: u32, length: u32) -> Result<Json, AllocError>
    ensures { IfOk result (λ j. json_view j ≡ object_of_full index length) }
{
    json!(in alloc; {"full": length, "reply": index})
}

#[tactic(auto, using(crate::proofs::Floats::ahead_no_float))]
fn ahead(alloc: Global, index: u32, length: u32, seen: u32) -> Result<Text, Memory>
    ensures { IfOk result (λ t. t ≡ compact_text (object_of_ahead index length seen)) }
{
    let form = ahead_object(alloc, index, length, seen)?;
    json_text(alloc, &form)
}

#[tactic(auto, unfolding(crate::specs::ReplyText::ahead_object))]
fn ahead_object(alloc: Global, index: u32, length: u32, seen: u32) -> Result<Json, AllocError>
    ensures { IfOk result (λ j. json_view j ≡ object_of_ahead index length seen) }
{
    json!(in alloc; {"length": length, "reply": index, "seen": seen})
}

#[tactic(auto, using(crate::proofs::Floats::unknown_no_float))]
fn unknown(alloc: Global, index: u32, k: u32, node: &Text) -> Result<Text, Memory>
    ensures { IfOk result (λ t. t ≡ compact_text (object_of_unknown index k node.now)) }
{
    let form = unknown_object(alloc, index, k, node.as_str())?;
    json_text(alloc, &form)
}

#[tactic(auto, unfolding(crate::specs::ReplyText::unknown_object))]
fn unknown_object(alloc: Global, index: u32, k: u32, node: &str) -> Result<Json, AllocError>
    ensures { IfOk result (λ j. json_view j ≡ object_of_unknown index k node.now) }
{
    json!(in alloc; {"k": k, "reply": index, "unknown": node})
}

#[tactic(auto, using(crate::proofs::Floats::deactivated_no_float))]
fn deactivated(alloc: Global, index: u32, entry: u32) -> Result<Text, Memory>
    ensures { IfOk result (λ t. t ≡ compact_text (object_of_deactivated index entry)) }
{
    let form = deactivated_object(alloc, index, entry)?;
    json_text(alloc, &form)
}

#[tactic(auto, unfolding(crate::specs::ReplyText::deactivated_object))]
fn deactivated_object(alloc: Global, index: u32, entry: u32) -> Result<Json, AllocError>
    ensures { IfOk result (λ j. json_view j ≡ object_of_deactivated index entry) }
{
    json!(in alloc; {"entry": entry, "reply": index})
}

#[tactic(auto, using(crate::proofs::Floats::deployed_no_float))]
fn deployed(alloc: Global, index: u32, entry: u32) -> Result<Text, Memory>
    ensures { IfOk result (λ t. t ≡ compact_text (object_of_deployed index entry)) }
{
    let form = deployed_object(alloc, index, entry)?;
    json_text(alloc, &form)
}

#[tactic(auto, unfolding(crate::specs::ReplyText::deployed_object))]
fn deployed_object(alloc: Global, index: u32, entry: u32) -> Result<Json, AllocError>
    ensures { IfOk result (λ j. json_view j ≡ object_of_deployed index entry) }
{
    json!(in alloc; {"deployed": entry, "reply": index})
}

#[tactic(auto, using(crate::proofs::Floats::reported_no_float))]
fn reported(alloc: Global, index: u32, entry: u32) -> Result<Text, Memory>
    ensures { IfOk result (λ t. t ≡ compact_text (object_of_reported index entry)) }
{
    let form = reported_object(alloc, index, entry)?;
    json_text(alloc, &form)
}

#[tactic(auto, unfolding(crate::specs::ReplyText::reported_object))]
fn reported_object(alloc: Global, index: u32, entry: u32) -> Result<Json, AllocError>
    ensures { IfOk result (λ j. json_view j ≡ object_of_reported index entry) }
{
    json!(in alloc; {"reply": index, "reported": entry})
}

#[tactic(auto, using(crate::proofs::Floats::memory_no_float))]
fn memory(alloc: Global, index: u32) -> Result<Text, Memory>
    ensures { IfOk result (λ t. t ≡ compact_text (object_of_memory index)) }
{
    let form = memory_object(alloc, index)?;
    json_text(alloc, &form)
}

#[tactic(auto, unfolding(crate::specs::ReplyText::memory_object))]
fn memory_object(alloc: Global, index: u32) -> Result<Json, AllocError>
    ensures { IfOk result (λ j. json_view j ≡ object_of_memory index) }
{
    json!(in alloc; {"memory": true, "reply": index})
}
