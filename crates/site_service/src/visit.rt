//! One connection, on a thread of its own.
ghost use Rattle.std.specs.Prelude.{◌≡◌};

use shared_site::{SharedSite, SitePass};
use site_core::Language;
use site_io::{Connection, Gate};
use site_serve::{ConnEnd, serve_connection};
use std::alloc::Global;
use std::sync::Wait;
use work_pool::WaitingJob;

/// A connection that is to be served, with a pass of its own.
#[derive(Drop)]
pub struct Visit<'a, L: Language, C, G> {
    pub alloc: Global,
    pub site: &'a SharedSite<L>,
    pub gate: &'a G,
    pub pass: SitePass<L>,
    pub connection: C,
    ghost of: { pass.site ≡ site.now },
}

/// A connection that was served and shut, with its pass, and how it ended.
#[derive(Drop)]
pub struct Visited<P, C> {
    pub pass: P,
    pub connection: C,
    pub end: ConnEnd,
}

impl<'a, L: Language + Drop, C: Connection, G: Gate> WaitingJob for Visit<'a, L, C, G> {
    ghost use Rattle.site_serve.specs.Ends.{dialect};
    ghost use Rattle.site_service.specs.Visits.{HasVisited};

    type Out = Visited<SitePass<L>, C>;

    ghost promise = { λ v out. HasVisited L.meaning L.listed
        (dialect L.said_site L.catalog_form L.fault_form)
        v.pass (C.stream v.connection) out.end out.pass (C.stream out.connection) };

    fn run<R: Wait>(self, rt: &R) -> Visited<SitePass<L>, C> {
        let Visit {
            alloc,
            site,
            gate,
            mut pass,
            mut connection,
        } = self;
        let end = serve_connection(rt, alloc, site, &mut pass, &mut connection, gate);
        pass.keeps();
        connection.shut();
        Visited {
            pass,
            connection,
            end,
        }
    }
}
