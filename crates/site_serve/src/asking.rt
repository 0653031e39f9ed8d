//! What requests ask of a site.
ghost use Rattle.std.specs.Prelude.{◌≡◌, option_map, IfOk};
ghost use Rattle.pp_values.specs.Views.{view};
ghost use Rattle.res_core.specs.RequestViews.{wanted};
ghost use Rattle.site_serve.specs.Requests.{seen_number, seen_asked, facts_said, facts_asked, wanted_by, ReportAsked};
ghost use Rattle.site_serve.specs.Requests.{site_asked, compile_asked, FilingAsked, deployment_asked, AsksAt, AsksOf};
ghost use Rattle.site_serve.specs.Requests.{Asks};
ghost use Rattle.site_serve.specs.Steps.{asked, ReadsBy, ReadsAs, ReadsSent};

use crate::ask_stop::AskStop;
use crate::call::Call;
use crate::endpoint::Endpoint;
use crate::refusal::Refusal;
use crate::routes::Routes;
use agent_docs::{DocStop, read_report};
use agent_machine::Report;
use http_wire::{HttpRequest, number};
use pp_values::{Memory, Text, Value};
use res_core::CompileRequest;
use serde_json::Value as Json;
use site_bundle::given_facts;
use site_core::{Language, SiteStop};
use site_io::Bytes;
use std::alloc::Global;

/// What the request asks of a site of this language. The path is looked at first, then the method.
pub(crate) fn asked<L: Language>(
    alloc: Global,
    language: &L,
    routes: &Routes,
    request: &HttpRequest,
) -> Result<Call<L::Site>, AskStop>
    ensures { ReadsBy asked result (Asks L.said_site request.now) }
{
    let endpoint = routes.endpoint(alloc, request.path.as_str())?;
    asked_of(alloc, language, endpoint, request)
}

fn asked_of<L: Language>(
    alloc: Global,
    language: &L,
    endpoint: Option<Endpoint>,
    request: &HttpRequest,
) -> Result<Call<L::Site>, AskStop>
    ensures { ReadsBy asked result (AsksOf L.said_site endpoint request.now) }
{
    match endpoint {
        Some(endpoint) => {
            if request.method.as_str() == endpoint.method() {
                asked_at(alloc, language, endpoint, request)
            } else {
                Err(AskStop::Refused(Refusal::Method))
            }
        }
        None => Err(AskStop::Refused(Refusal::Path)),
    }
}

fn asked_at<L: Language>(
    alloc: Global,
    language: &L,
    endpoint: Endpoint,
    request: &HttpRequest,
) -> Result<Call<L::Site>, AskStop>
    ensures { ReadsBy asked result (AsksAt L.said_site endpoint request.now) }
{
    match endpoint {
        Endpoint::Catalog(node) => compile_asked(alloc, node, request),
        Endpoint::Node(node) => Ok(Call::Deactivate(node)),
        Endpoint::Report(node) => filing_asked(alloc, &node, &request.body),
        Endpoint::Site => deployment_asked(alloc, language, &request.body),
    }
}

fn compile_asked<S>(alloc: Global, node: Text, request: &HttpRequest) -> Result<Call<S>, AskStop>
    ensures { ReadsAs asked result (compile_asked node request.now) }
{
    let wanted = wanted(alloc, node, &request.seen, &request.body)?;
    Ok(Call::Compile(wanted))
}

fn filing_asked<S>(alloc: Global, node: &Text, body: &Bytes) -> Result<Call<S>, AskStop>
    ensures { ReadsBy asked result (FilingAsked node.now body.now) }
{
    match report_of(alloc, node, body) {
        Ok(report) => Ok(Call::File(report)),
        Err(stop) => Err(stop),
    }
}

fn deployment_asked<L: Language>(
    alloc: Global,
    language: &L,
    body: &Bytes,
) -> Result<Call<L::Site>, AskStop>
    ensures { ReadsAs asked result (deployment_asked L.said_site body.now) }
{
    let site = site_of(alloc, language, body)?;
    Ok(Call::Deploy(site))
}

fn wanted(
    alloc: Global,
    node: Text,
    seen: &Option<Text>,
    body: &Bytes,
) -> Result<CompileRequest, AskStop>
    ensures { ReadsAs wanted result (wanted_by node seen.now body.now) }
{
    let seen = seen_asked(seen)?;
    let facts = facts_asked(alloc, body)?;
    Ok(CompileRequest { node, facts, seen })
}

/// How many entries the sender has seen.
fn seen_asked(value: &Option<Text>) -> Result<u32, AskStop>
    ensures { ReadsAs (λ n. n) result (seen_asked value.now) }
{
    let Some(value) = value else {
        return Ok(0);
    };
    match seen_number(value.as_str().as_bytes()) {
        Some(seen) => Ok(seen),
        None => Err(AskStop::Refused(Refusal::Seen)),
    }
}

/// The decimal number of 32 bits that is written so, without a sign and without a leading zero.
fn seen_number(digits: &[u8]) -> Option<u32>
    ensures { result ≡ seen_number digits.now }
{
    match digits {
        [b'0', _, ..] => None,
        digits => number(digits),
    }
}

/// The node's facts, where some are sent.
fn facts_asked(alloc: Global, body: &Bytes) -> Result<Option<Value>, AskStop>
    ensures { ReadsAs (option_map view) result (facts_asked body.now) }
{
    if body.is_empty() {
        return Ok(None);
    }
    match facts_said(alloc, body.as_slice())? {
        Some(facts) => Ok(Some(facts)),
        None => Err(AskStop::Refused(Refusal::Facts)),
    }
}

/// The facts that JSON gives.
fn facts_said(alloc: Global, body: &[u8]) -> Result<Option<Value>, Memory>
    ensures { IfOk result (λ facts. option_map view facts ≡ facts_said body.now) }
{
    match Json::from_slice(alloc, body) {
        Ok(json) => given_facts(alloc, &json),
        Err(error) if error.is_memory() => Err(Memory),
        Err(_) => Ok(None),
    }
}

fn site_of<L: Language>(alloc: Global, language: &L, body: &Bytes) -> Result<L::Site, AskStop>
    ensures { ReadsAs (λ site. site) result (site_asked L.said_site body.now) }
{
    match language.site_of(alloc, body.as_slice()) {
        Ok(site) => Ok(site),
        Err(SiteStop::Bad) => Err(AskStop::Refused(Refusal::Site)),
        Err(SiteStop::Memory) => Err(AskStop::Memory),
    }
}

/// The report of this node that is sent.
fn report_of(alloc: Global, node: &Text, body: &Bytes) -> Result<Report, AskStop>
    ensures { ReadsBy (λ report. report) result (ReportAsked node.now body.now) }
{
    match report_sent(alloc, body.as_slice()) {
        Ok(Some(report)) => {
            if report.node.is(node.as_str()) {
                Ok(report)
            } else {
                Err(AskStop::Refused(Refusal::Report))
            }
        }
        Ok(None) => Err(AskStop::Refused(Refusal::Report)),
        Err(_memory) => Err(AskStop::Memory),
    }
}

/// The report whose text the bytes are.
fn report_sent(alloc: Global, body: &[u8]) -> Result<Option<Report>, Memory>
    ensures { ReadsSent body.now result }
{
    let Ok(text) = str::from_utf8(body) else {
        return Ok(None);
    };
    match read_report(alloc, text) {
        Ok(report) => Ok(Some(report)),
        Err(DocStop::Bad(_)) => Ok(None),
        Err(DocStop::Memory) => Err(Memory),
    }
}
