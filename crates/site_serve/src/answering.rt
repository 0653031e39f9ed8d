//! One request, answered.
ghost use Rattle.std.specs.Prelude.{◌≡◌, IsTrue};
ghost use Rattle.shared_site.specs.Known.{IsAnswered};
ghost use Rattle.site_serve.specs.Ends.{dialect};
ghost use Rattle.site_serve.specs.Steps.{asked, gives_facts, Responds, HasReply, EndsRefused};

use crate::ask_stop::AskStop;
use crate::asking::asked;
use crate::call::Call;
use crate::conn_end::ConnEnd;
use crate::responses::{faulty_response, refusal_response, reply_response};
use crate::routes::Routes;
use http_wire::{H, HttpRequest, HttpResponse, WriteStop, write_response};
use pp_values::Memory;
use shared_site::{Reply, SharedSite, SitePass};
use site_core::Language;
use site_io::{Gate, Sink};
use std::alloc::Global;
use std::sync::Wait;

/// Asks the site what the request asks, and gives the response.
pub(crate) fn respond<L: Language + Drop, G: Gate, R: Wait>(
    rt: &R,
    alloc: Global,
    site: &SharedSite<L>,
    pass: &mut SitePass<L>,
    routes: &Routes,
    request: &HttpRequest,
    gate: &G,
) -> Result<HttpResponse, Memory>
    requires { pass.old.site ≡ site.now }
    ensures { Responds L.meaning L.listed (dialect L.said_site L.catalog_form L.fault_form) request.now result
        pass.old pass.new }
{
    match asked(alloc, site.language(), routes, request) {
        Ok(call) => reply(rt, alloc, site, pass, call, gate),
        Err(AskStop::Refused(why)) => refusal_response(alloc, why),
        Err(AskStop::Memory) => Err(Memory),
    }
}

/// Asks the site, and gives the response to its reply.
fn reply<L: Language + Drop, G: Gate, R: Wait>(
    rt: &R,
    alloc: Global,
    site: &SharedSite<L>,
    pass: &mut SitePass<L>,
    call: Call<L::Site>,
    gate: &G,
) -> Result<HttpResponse, Memory>
    requires site { pass.old.site ≡ site.now }
    requires facts { IsTrue (gives_facts (asked call)) }
    ensures { HasReply L.meaning L.listed L.catalog_form L.fault_form (asked call) result pass.old pass.new }
{
    let told = call.seen();
    let reply = answer(rt, alloc, site, pass, call, gate);
    reply_response(alloc, site.language(), told, &reply)
}

fn answer<L: Language + Drop, G: Gate, R: Wait>(
    rt: &R,
    alloc: Global,
    site: &SharedSite<L>,
    pass: &mut SitePass<L>,
    call: Call<L::Site>,
    gate: &G,
) -> Reply<L>
    requires site { pass.old.site ≡ site.now }
    requires facts { IsTrue (gives_facts (asked call)) }
    ensures { IsAnswered L.meaning L.listed (asked call) result pass.old pass.new }
{
    match call {
        Call::Compile(request) => site.serve_one(rt, alloc, pass, &request, gate),
        Call::Deactivate(node) => site.deactivate(rt, alloc, pass, &node),
        Call::Deploy(other) => site.deploy(rt, alloc, pass, other),
        Call::File(report) => site.file_report(rt, alloc, pass, report),
    }
}

/// Answers a faulty message, where it is answered, and tells how the connection ends.
pub(crate) fn refuse<K: Sink>(alloc: Global, to: &mut K, why: H, offset: u64) -> ConnEnd
    ensures { EndsRefused why offset result (K.stream to.old) (K.stream to.new) }
{
    let response = match faulty_response(alloc, why) {
        Ok(Some(response)) => response,
        Ok(None) => return ConnEnd::Bad(why, offset),
        Err(_memory) => return ConnEnd::Memory,
    };
    match write_response(alloc, to, &response) {
        Ok(()) => ConnEnd::Bad(why, offset),
        Err(WriteStop::WriteFault) => ConnEnd::WriteFault,
        Err(WriteStop::Memory) => ConnEnd::Memory,
    }
}
