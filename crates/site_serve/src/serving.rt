//! One connection, from its first byte to its end.
ghost use Rattle.std.specs.Prelude.{◌≡◌};
ghost use Rattle.site_serve.specs.Ends.{Ends, HasReplied, IsPrompt, dialect};

use crate::answering::{refuse, respond};
use crate::conn_end::{ConnEnd, MOST_ANSWERS};
use crate::routes::Routes;
use http_wire::{WireStop, WriteStop, read_request, write_response};
use shared_site::{SharedSite, SitePass};
use site_core::Language;
use site_io::{Bytes, Gate, Sink, Source};
use std::alloc::Global;
use std::sync::Wait;

/// Answers the requests of a connection, one after another, with calls of the site as the pass's author.
///
/// Once a write has failed, nothing more is read.
pub fn serve_connection<L: Language + Drop, C: Source + Sink, G: Gate, R: Wait>(
    rt: &R,
    alloc: Global,
    site: &SharedSite<L>,
    pass: &mut SitePass<L>,
    connection: &mut C,
    gate: &G,
) -> ConnEnd
    requires { pass.old.site ≡ site.now }
    ensures ends { Ends (dialect L.said_site L.catalog_form L.fault_form) (HasReplied L.meaning L.listed pass.old pass.new)
        result (C.stream connection.old) (C.stream connection.new) }

    // Each answer is written before the next byte is read for another request.
    ensures prompt { IsPrompt (dialect L.said_site L.catalog_form L.fault_form) (C.stream connection.old)
        (C.stream connection.new) }
{
    pass.keeps();
    match Routes::new(alloc) {
        Ok(routes) => answer_all(rt, alloc, site, pass, &routes, connection, gate),
        Err(_refused) => ConnEnd::Memory,
    }
}

fn answer_all<L: Language + Drop, C: Source + Sink, G: Gate, R: Wait>(
    rt: &R,
    alloc: Global,
    site: &SharedSite<L>,
    pass: &mut SitePass<L>,
    routes: &Routes,
    connection: &mut C,
    gate: &G,
) -> ConnEnd
    requires { pass.old.site ≡ site.now }
    ensures ends { Ends (dialect L.said_site L.catalog_form L.fault_form) (HasReplied L.meaning L.listed pass.old pass.new)
        result (C.stream connection.old) (C.stream connection.new) }
    ensures prompt { IsPrompt (dialect L.said_site L.catalog_form L.fault_form) (C.stream connection.old)
        (C.stream connection.new) }
{
    pass.keeps();
    let mut rest = Bytes::new(alloc);
    let mut offset = 0u64;
    for _answered in 0..MOST_ANSWERS {
        match read_request(alloc, connection, &mut rest) {
            Ok(Some(request)) => {
                let response = respond(rt, alloc, site, pass, routes, &request, gate);
                pass.keeps();
                let Ok(response) = response else {
                    return ConnEnd::Memory;
                };
                match write_response(alloc, connection, &response) {
                    Ok(()) => {}
                    Err(WriteStop::WriteFault) => return ConnEnd::WriteFault,
                    Err(WriteStop::Memory) => return ConnEnd::Memory,
                }
                if request.close {
                    return ConnEnd::Closed;
                }
                offset += request.size as u64;
            }
            Ok(None) => return ConnEnd::Closed,
            // The place that is told counts from the message's first byte.
            Err(WireStop::Bad(why, _)) => return refuse(alloc, connection, why, offset),
            Err(WireStop::ReadFault) => return ConnEnd::ReadFault,
            Err(WireStop::Memory) => return ConnEnd::Memory,
        }
    }
    ConnEnd::Closed
}
