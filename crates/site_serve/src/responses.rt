//! Responses.
ghost use Rattle.std.specs.Prelude.{◌≡◌, Some, IfOk, string_bytes};
ghost use Rattle.site_serve.specs.Replies.{says, refusal_response, served_response, refused_response, full_response};
ghost use Rattle.site_serve.specs.Replies.{ahead_response, names_entry, reply_response};
ghost use Rattle.site_serve.specs.Steps.{faulty_response};

use crate::refusal::Refusal;
use http::StatusCode;
use http_wire::{H, HttpResponse};
use pp_values::{Memory, Text};
use shared_site::{Reply, ReplyOf};
use site_core::Language;
use site_io::Bytes;
use std::alloc::Global;

/// A response of one line.
fn says(status: StatusCode, line: String) -> Result<HttpResponse, Memory>
    ensures { IfOk result (λ response. response ≡ says status (string_bytes line)) }
{
    let mut line = line;
    line.push('\n')?;
    Ok(HttpResponse {
        status,
        entry: None,
        k: None,
        body: Bytes::from_vec(line.into_bytes()),
    })
}

fn words(alloc: Global, status: StatusCode, line: &str) -> Result<HttpResponse, Memory>
    ensures { IfOk result (λ response. response ≡ says status line.now) }
{
    says(status, String::from_str(alloc, line)?)
}

pub(crate) fn refusal_response(alloc: Global, why: Refusal) -> Result<HttpResponse, Memory>
    ensures { IfOk result (λ response. response ≡ refusal_response why) }
{
    match why {
        Refusal::Path => words(alloc, StatusCode::NOT_FOUND, "path"),
        Refusal::Method => words(alloc, StatusCode::METHOD_NOT_ALLOWED, "method"),
        Refusal::Seen => words(alloc, StatusCode::BAD_REQUEST, "bad seen"),
        Refusal::Facts => words(alloc, StatusCode::BAD_REQUEST, "bad facts"),
        Refusal::Site => words(alloc, StatusCode::BAD_REQUEST, "bad site"),
        Refusal::Report => words(alloc, StatusCode::BAD_REQUEST, "bad report"),
    }
}

/// The response to a faulty message, where there is one.
pub(crate) fn faulty_response(alloc: Global, why: H) -> Result<Option<HttpResponse>, Memory>
    ensures { IfOk result (λ response. response ≡ faulty_response why) }
{
    let response = match why {
        H::BadHead => words(alloc, StatusCode::BAD_REQUEST, "H1")?,
        H::BadLength => words(alloc, StatusCode::BAD_REQUEST, "H2")?,
        H::TooLarge => words(alloc, StatusCode::PAYLOAD_TOO_LARGE, "H3")?,
        H::Truncated => return Ok(None),
    };
    Ok(Some(response))
}

/// The response to a reply of the site. `seen` is how many entries the request told of.
pub(crate) fn reply_response<L: Language>(
    alloc: Global,
    language: &L,
    seen: u32,
    reply: &Reply<L>,
) -> Result<HttpResponse, Memory>
    ensures { IfOk result (λ response. response ≡ reply_response L.catalog_form L.fault_form seen reply.now) }
{
    match reply {
        ReplyOf::Served { entry, k, catalog } => {
            served(alloc, *entry, *k, language.catalog_text(alloc, catalog)?)
        }
        ReplyOf::Refused { k, fault } => refused(alloc, *k, language.fault_text(alloc, fault)?),
        ReplyOf::HistoryFull { length } => full(alloc, *length),
        ReplyOf::SeenAhead { length } => ahead(alloc, seen, *length),
        ReplyOf::UnknownNode { k: _ } => words(alloc, StatusCode::NOT_FOUND, "unknown node"),
        ReplyOf::Deactivated { entry } => entry_named(alloc, *entry),
        ReplyOf::Deployed { entry } => entry_named(alloc, *entry),
        ReplyOf::Reported { entry } => entry_named(alloc, *entry),
        ReplyOf::Memory => words(alloc, StatusCode::SERVICE_UNAVAILABLE, "memory"),
    }
}

fn with_entry(response: HttpResponse, entry: u32) -> HttpResponse
    ensures { result ≡ record response { entry = Some entry } }
{
    let HttpResponse {
        status,
        entry: _,
        k,
        body,
    } = response;
    HttpResponse {
        status,
        entry: Some(entry),
        k,
        body,
    }
}

fn with_k(response: HttpResponse, k: u32) -> HttpResponse
    ensures { result ≡ record response { k = Some k } }
{
    let HttpResponse {
        status,
        entry,
        k: _,
        body,
    } = response;
    HttpResponse {
        status,
        entry,
        k: Some(k),
        body,
    }
}

fn served(alloc: Global, entry: u32, k: u32, catalog: Text) -> Result<HttpResponse, Memory>
    ensures { IfOk result (λ response. response ≡ served_response entry k catalog) }
{
    let response = says(StatusCode::OK, catalog.into_string(alloc)?)?;
    Ok(with_k(with_entry(response, entry), k))
}

fn refused(alloc: Global, k: u32, fault: Text) -> Result<HttpResponse, Memory>
    ensures { IfOk result (λ response. response ≡ refused_response k fault) }
{
    let response = says(StatusCode::UNPROCESSABLE_ENTITY, fault.into_string(alloc)?)?;
    Ok(with_k(response, k))
}

fn full(alloc: Global, length: u32) -> Result<HttpResponse, Memory>
    ensures { IfOk result (λ response. response ≡ full_response length) }
{
    says(
        StatusCode::SERVICE_UNAVAILABLE,
        format!(in alloc; "full {length}")?,
    )
}

fn ahead(alloc: Global, seen: u32, length: u32) -> Result<HttpResponse, Memory>
    ensures { IfOk result (λ response. response ≡ ahead_response seen length) }
{
    says(
        StatusCode::CONFLICT,
        format!(in alloc; "seen {seen} length {length}")?,
    )
}

fn entry_named(alloc: Global, entry: u32) -> Result<HttpResponse, Memory>
    ensures { IfOk result (λ response. response ≡ names_entry entry) }
{
    let response = says(StatusCode::OK, format!(in alloc; "entry {entry}")?)?;
    Ok(with_entry(response, entry))
}
