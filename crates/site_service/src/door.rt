//! Where connections come in.
ghost use Rattle.std.specs.Prelude.{◌≡◌, ◌≤◌};

use crate::service_stop::ServiceStop;
use crate::visit::Visit;
use shared_site::{SharedSite, SitePass};
use site_core::Language;
use site_io::{Accept, Gate, Listener};
use std::alloc::Global;
use std::sync::Wait;
use work_pool::Supply;

/// Takes connections, one after another, and splits a pass for each one before it waits for it.
#[derive(Drop)]
pub struct Door<'a, 'n, L: Language, N, G> {
    pub alloc: Global,
    pub site: &'a SharedSite<L>,
    pub gate: &'a G,
    pub net: &'n mut N,
    pub pass: SitePass<L>,
    /// How many connections are still wanted.
    pub left: u32,
    pub stop: ServiceStop,
    ghost of: { pass.site ≡ site.now },
    ghost room: { left ≤ pass.room },
}

impl<'a, 'n, L: Language + Drop, N: Listener, G: Gate> Supply for Door<'a, 'n, L, N, G> {
    ghost use Rattle.std.specs.Prelude.{option_map};
    ghost use Rattle.site_service.specs.Doors.{Opens};

    type Job = Visit<'a, L, N::Conn, G>;

    ghost gives = { λ d job e. (e.net.ghost_name ≡ d.net.ghost_name) × (e.site.now ≡ d.site.now)
        × Opens d.pass (N.net d.net.now) d.left (option_map (λ v. (v.pass, N.Conn.stream v.connection)) job)
        e.stop e.pass (N.net e.net.now) e.left };

    fn next<R: Wait>(&mut self, rt: &R) -> Option<Visit<'a, L, N::Conn, G>> {
        if self.left == 0 {
            self.stop = ServiceStop::Counted;
            return None;
        }
        self.left -= 1;
        let Ok(pass) = self.site.split(rt, &mut self.pass) else {
            unreachable!()
        };
        match self.net.next_connection() {
            Accept::Connection(connection) => {
                self.stop = ServiceStop::Counted;
                Some(Visit {
                    alloc: self.alloc,
                    site: self.site,
                    gate: self.gate,
                    pass,
                    connection,
                })
            }
            Accept::Closed => {
                self.site.join(&mut self.pass, pass);
                self.stop = ServiceStop::Closed;
                None
            }
            Accept::Failed => {
                self.site.join(&mut self.pass, pass);
                self.stop = ServiceStop::NetFault;
                None
            }
        }
    }
}
