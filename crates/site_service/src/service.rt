//! A site that is served to connections.
ghost use Rattle.std.specs.Prelude.{◌≡◌, ◌≤◌, ◌+◌, [], ◌∷◌, length, map, IfOk, OnErr, vec_len, vec_capacity};
ghost use Rattle.site_core.specs.Legal.{Legal};
ghost use Rattle.site_core.specs.Resuming.{base_of};
ghost use Rattle.site_core.specs.declared.history.TheConstants.{MOST_ENTRIES};
ghost use Rattle.site_core.specs.Each.{Each};
ghost use Rattle.site_core.specs.Events.{opens};
ghost use Rattle.shared_site.specs.Resumed.{ResumesWith};
ghost use Rattle.work_pool.specs.Supplied.{HasRun};
ghost use Rattle.site_service.specs.Doors.{IsOpening, Opens};
ghost use Rattle.site_serve.specs.Ends.{dialect};
ghost use Rattle.site_service.specs.Visits.{HasVisited};
ghost use Rattle.site_service.specs.Served.{HasServedAll, IsNewNet};
ghost use Rattle.site_service.specs.Handing.{HasJoined, AreOut, AreBack};

use crate::door::Door;
use crate::service_stop::ServiceStop;
use crate::visit::Visited;
use pp_values::Memory;
use shared_site::{SharedSite, SitePass};
use site_core::{History, Language, MOST_ENTRIES, ResumeStop};
use site_io::{Bound, Gate, Listener};
use site_serve::ConnEnd;
use std::alloc::Global;
use std::sync::Wait;
use std::thread::Threads;
use work_pool::run_supplied;

/// The most connections that one service takes.
pub const MOST_CONNECTIONS: u32 = 1024;

/// What comes of a service.
#[derive(Drop)]
pub struct Served<L: Language> {
    pub history: History<L::Site>,
    /// How each connection ended, in the order in which they were taken.
    pub ends: Vec<ConnEnd>,
    /// Why no more of them were taken.
    pub stop: ServiceStop,
}

/// What came of each connection that was taken.
type Visits<L, N> = Vec<Visited<SitePass<L>, <N as Listener>::Conn>>;

/// Opens the site, listens at the port, and takes connections, as many as are wanted or as come. Each one is served and
/// shut on a thread of its own, which is started before the next one is waited for; where no thread can be had it is
/// served first. Connection `c`, counted from 1, is author `c` of the history. Once all have ended they are handed back
/// to the listener, in the order in which they came.
///
/// All memory that this takes is taken before it listens. What a connection itself wants, when it is served, is told by
/// its end.
pub fn serve<L: Language + Drop + Sync, N: Listener, G: Gate + Sync, R: Threads + Wait + Sync>(
    rt: &R,
    alloc: Global,
    language: L,
    site: L::Site,
    net: &mut N,
    port: u16,
    count: u32,
    gate: &G,
) -> Result<Served<L>, Memory>
where
    L::Site: Send + Sync,
    L::Catalog: Send,
    L::Fault: Send,
    N::Conn: Send + Drop,
    requires few { count ≤ MOST_CONNECTIONS }
    ensures ok { IfOk result (λ r. HasServedAll L.meaning L.listed
        (dialect L.said_site L.catalog_form L.fault_form) MOST_ENTRIES 0 (opens site ∷ []) count
        (N.net net.old) (N.net net.new) r.ends.items r.stop r.history.entries) }
    ensures err { OnErr result (N.net net.new ≡ N.net net.old) }
{
    let visits = Vec::with_capacity(alloc, count as usize)?;
    let ends = Vec::with_capacity(alloc, count as usize)?;
    let (shared, pass) = SharedSite::open(alloc, language, site, MOST_ENTRIES)?;
    Ok(serve_shared(
        rt, alloc, shared, pass, net, port, count, gate, visits, ends,
    ))
}

/// Goes on from a history, under the site that is in force behind its last entry, and serves it as `serve` does.
/// Connection `c` is the author `c` places behind the one that follows the greatest of the history, or author `c` where
/// no entry has one.
pub fn serve_resumed<
    L: Language + Drop + Sync,
    N: Listener,
    G: Gate + Sync,
    R: Threads + Wait + Sync,
>(
    rt: &R,
    alloc: Global,
    language: L,
    history: History<L::Site>,
    net: &mut N,
    port: u16,
    count: u32,
    gate: &G,
) -> Result<Served<L>, ResumeStop>
where
    L::Site: Send + Sync,
    L::Catalog: Send,
    L::Fault: Send,
    N::Conn: Send + Drop,
    requires legal { Legal L.meaning history.entries }
    requires within { length history.entries ≤ MOST_ENTRIES }
    requires few { count ≤ MOST_CONNECTIONS }
    ensures ok { ResumesWith (λ r. HasServedAll L.meaning L.listed
        (dialect L.said_site L.catalog_form L.fault_form) MOST_ENTRIES (base_of history.entries) history.entries count
        (N.net net.old) (N.net net.new) r.ends.items r.stop r.history.entries) history.entries result }
    ensures err { OnErr result (N.net net.new ≡ N.net net.old) }
{
    let (shared, pass) = SharedSite::resume(alloc, language, history, MOST_ENTRIES)?;
    let visits = Vec::with_capacity(alloc, count as usize)?;
    let ends = Vec::with_capacity(alloc, count as usize)?;
    Ok(serve_shared(
        rt, alloc, shared, pass, net, port, count, gate, visits, ends,
    ))
}

/// Listens at the port, and serves the site from its first pass on.
fn serve_shared<L: Language + Drop + Sync, N: Listener, G: Gate + Sync, R: Threads + Wait + Sync>(
    rt: &R,
    alloc: Global,
    shared: SharedSite<L>,
    pass: SitePass<L>,
    net: &mut N,
    port: u16,
    count: u32,
    gate: &G,
    visits: Visits<L, N>,
    ends: Vec<ConnEnd>,
) -> Served<L>
where
    L::Site: Send + Sync,
    L::Catalog: Send,
    L::Fault: Send,
    N::Conn: Send + Drop,
    requires opening { IsOpening shared pass }
    requires few { count ≤ MOST_CONNECTIONS }
    requires none { vec_len visits ≡ 0 }
    requires room { count ≤ vec_capacity visits }
    requires no_ends { ends.items ≡ [] }
    requires ends_room { count ≤ vec_capacity ends }
    ensures { HasServedAll L.meaning L.listed (dialect L.said_site L.catalog_form L.fault_form) pass.terms.limit
        pass.terms.base pass.front
        count (N.net net.old) (N.net net.new) result.ends.items result.stop result.history.entries }
{
    match net.listen(port) {
        Bound::Failed => Served {
            history: shared.close(pass),
            ends,
            stop: ServiceStop::NetFault,
        },
        Bound::Listening => serve_all(rt, alloc, shared, pass, net, count, gate, visits, ends),
    }
}

/// Takes connections from a listener that listens, has them served, hands them back and closes the site.
fn serve_all<L: Language + Drop + Sync, N: Listener, G: Gate + Sync, R: Threads + Wait + Sync>(
    rt: &R,
    alloc: Global,
    shared: SharedSite<L>,
    pass: SitePass<L>,
    net: &mut N,
    count: u32,
    gate: &G,
    visits: Visits<L, N>,
    ends: Vec<ConnEnd>,
) -> Served<L>
where
    L::Site: Send + Sync,
    L::Catalog: Send,
    L::Fault: Send,
    N::Conn: Send + Drop,
    requires opening { IsOpening shared pass }
    requires few { count ≤ MOST_CONNECTIONS }
    requires new { IsNewNet (N.net net.old).told }
    requires none { vec_len visits ≡ 0 }
    requires room { count ≤ vec_capacity visits }
    requires no_ends { ends.items ≡ [] }
    requires ends_room { count ≤ vec_capacity ends }
    ensures { HasServedAll L.meaning L.listed (dialect L.said_site L.catalog_form L.fault_form) pass.terms.limit
        pass.terms.base pass.front
        count (N.net net.old) (N.net net.new) result.ends.items result.stop result.history.entries }
{
    let door = Door {
        alloc,
        site: &shared,
        gate,
        net,
        pass,
        left: count,
        stop: ServiceStop::Counted,
    };
    let (door, visits) = run_door(rt, door, count as usize, visits);
    let Door {
        alloc: _,
        site: _,
        gate: _,
        net,
        pass,
        left: _,
        stop,
    } = door;
    let (pass, ends) = hand_back(&shared, net, pass, visits, ends);
    Served {
        history: shared.close(pass),
        ends,
        stop,
    }
}

/// Has each connection served that comes in at the door, up to `most` of them.
fn run_door<
    'a,
    'n,
    L: Language + Drop + Sync,
    N: Listener,
    G: Gate + Sync,
    R: Threads + Wait + Sync,
>(
    rt: &R,
    door: Door<'a, 'n, L, N, G>,
    most: usize,
    visits: Visits<L, N>,
) -> (Door<'a, 'n, L, N, G>, Visits<L, N>)
where
    L::Site: Send + Sync,
    L::Catalog: Send,
    L::Fault: Send,
    N::Conn: Send + Drop,
    requires none { vec_len visits ≡ 0 }
    requires room { most ≤ vec_capacity visits }
    ensures same_reference { result.0.net.ghost_name ≡ door.entry.net.ghost_name }
    ensures ran { HasRun (λ d job e. (e.net.ghost_name ≡ d.net.ghost_name)
        × Opens d.pass (N.net d.net.now) d.left job e.stop e.pass (N.net e.net.now) e.left)
        (λ v out. HasVisited L.meaning L.listed (dialect L.said_site L.catalog_form L.fault_form)
        v.0 v.1 out.end out.pass (N.Conn.stream out.connection))
        most door.entry result.1.items result.0 }
{
    run_supplied(rt, door, most, visits)
}

/// Hands the connections back, in order, and joins their passes.
fn hand_back<L: Language + Drop, N: Listener>(
    site: &SharedSite<L>,
    net: &mut N,
    mut pass: SitePass<L>,
    visits: Visits<L, N>,
    mut ends: Vec<ConnEnd>,
) -> (SitePass<L>, Vec<ConnEnd>)
where
    N::Conn: Drop,
    requires site { pass.site ≡ site.now }
    requires of { Each (λ v. v.pass.site ≡ site.now) visits.items }
    requires few { vec_len visits ≤ MOST_CONNECTIONS }
    requires none { ends.items ≡ [] }
    requires room { vec_len visits ≤ vec_capacity ends }
    requires out { AreOut (N.net net.old).told visits.items }
    ensures joined { HasJoined pass visits.items result.0 }
    ensures back { AreBack N.Conn.stream (N.net net.old).told visits.items (N.net net.new).told }
    ensures later { (N.net net.old).faults ≤ (N.net net.new).faults }
    ensures ends { result.1.items ≡ map (λ v. v.end) visits.items }
{
    let mut number = 0u32;
    for visited in visits {
        let Visited {
            pass: other,
            connection,
            end,
        } = visited;
        number += 1;
        net.end_connection(number, connection);
        site.join(&mut pass, other);
        ends.push_reserved(end);
    }
    (pass, ends)
}
