//! Requests that workers share out.
ghost use Rattle.std.specs.Prelude.{◌≡◌, ℕ, ◌+◌, ◌≤◌, length, IfOk, IsTrue};
ghost use Rattle.list_sums.specs.Counts.{times, below};
ghost use Rattle.res_core.specs.AskedFacts.{give_facts};
ghost use Rattle.site_core.specs.Asked.{all_asks};
ghost use Rattle.site_core.specs.Legal.{Legal};
ghost use Rattle.site_core.specs.Resuming.{base_of};
ghost use Rattle.site_core.specs.Runs.{Continues, Whole};
ghost use Rattle.site_core.specs.declared.history.TheConstants.{MOST_ENTRIES};
ghost use Rattle.work_pool.specs.Seats.{first_seat};
ghost use Rattle.site_core.specs.Each.{Each};
ghost use Rattle.shared_site.specs.Known.{first_pass};
ghost use Rattle.shared_site.specs.Resumed.{ResumesWith};
ghost use Rattle.site_batch.specs.Shares.{seen_by, IsIdle, AreShares};
ghost use Rattle.site_batch.specs.Gathered.{AreWorked, shown};
ghost use Rattle.site_batch.specs.Work.{HasWorked};
ghost use Rattle.std.specs.List.{AllZip};

use crate::gather::gather;
use crate::order::in_order;
use crate::worker::{FinishedOf, Worker};
use pp_values::Memory;
use res_core::Requests;
use shared_site::{SharedSite, SitePass};
use site_core::{History, Language, MOST_ENTRIES, ResumeStop};
use site_io::Gate;
use site_replies::Replies;
use std::alloc::Global;
use std::sync::Wait;
use std::thread::Threads;
use work_pool::{ClaimSeat, Claims, run_waiting};

/// The most workers of a batch.
pub const MOST_WORKERS: u32 = 64;

/// What came of requests to a site: its history, and the replies in the order of the requests.
#[derive(Drop)]
pub struct BatchResult<L: Language> {
    pub history: History<L::Site>,
    pub replies: Replies<L>,
}

/// A pass and a seat for each worker.
type Shares<L> = Vec<(SitePass<L>, ClaimSeat)>;

/// Opens the site and answers the requests, which so many workers share out, side by side where threads can be had.
///
/// A worker draws the number of a request, answers it and draws the next one. Worker `w` is author `w` of the history.
pub fn run_batch<L: Language + Drop + Sync, G: Gate + Sync, R: Threads + Wait + Sync>(
    rt: &R,
    alloc: Global,
    language: L,
    site: L::Site,
    requests: &Requests,
    workers: u32,
    gate: &G,
) -> Result<BatchResult<L>, Memory>
where
    L::Site: Send + Sync,
    L::Catalog: Send,
    L::Fault: Send,
    requires some { 1 ≤ workers }
    requires few { workers ≤ MOST_WORKERS }
    requires short { length requests.now ≤ MOST_ENTRIES }
    requires facts { IsTrue (give_facts requests.now) }
    ensures { IfOk result (λ r.
        Whole L.meaning L.listed MOST_ENTRIES workers site (all_asks requests.now) r.replies r.history.entries) }
{
    let (shared, pass) = SharedSite::open(alloc, language, site, MOST_ENTRIES)?;
    answer_all(rt, alloc, shared, pass, requests, workers, gate)
}

/// Goes on from a history with the requests, as `run_batch` does. Worker `w` is the author `w` places behind the
/// greatest one of the history.
pub fn resume_batch<L: Language + Drop + Sync, G: Gate + Sync, R: Threads + Wait + Sync>(
    rt: &R,
    alloc: Global,
    language: L,
    history: History<L::Site>,
    requests: &Requests,
    workers: u32,
    gate: &G,
) -> Result<BatchResult<L>, ResumeStop>
where
    L::Site: Send + Sync,
    L::Catalog: Send,
    L::Fault: Send,
    requires legal { Legal L.meaning history.entries }
    requires within { length history.entries ≤ MOST_ENTRIES }
    requires some { 1 ≤ workers }
    requires few { workers ≤ MOST_WORKERS }
    requires short { length requests.now ≤ MOST_ENTRIES }
    requires facts { IsTrue (give_facts requests.now) }
    ensures { ResumesWith (λ r. Continues L.meaning L.listed MOST_ENTRIES (base_of history.entries) workers
        history.entries (all_asks requests.now) r.replies r.history.entries) history.entries result }
{
    let (shared, pass) = SharedSite::resume(alloc, language, history, MOST_ENTRIES)?;
    Ok(answer_all(rt, alloc, shared, pass, requests, workers, gate)?)
}

/// Has workers answer the requests, and closes the site.
fn answer_all<L: Language + Drop + Sync, G: Gate + Sync, R: Threads + Wait + Sync>(
    rt: &R,
    alloc: Global,
    shared: SharedSite<L>,
    pass: SitePass<L>,
    requests: &Requests,
    workers: u32,
    gate: &G,
) -> Result<BatchResult<L>, Memory>
where
    L::Site: Send + Sync,
    L::Catalog: Send,
    L::Fault: Send,
    requires pass { pass ≡ first_pass shared (seen_by pass) }
    requires given { pass.terms.given ≡ length pass.front }
    requires some { 1 ≤ workers }
    requires few { workers ≤ MOST_WORKERS }
    requires short { length requests.now ≤ MOST_ENTRIES }
    requires facts { IsTrue (give_facts requests.now) }
    ensures { IfOk result (λ r. Continues L.meaning L.listed pass.terms.limit pass.terms.base workers pass.front
        (all_asks requests.now) r.replies r.history.entries) }
{
    let (claims, seat) = Claims::new(alloc, requests.len() as u32)?;
    let shares = shares(rt, alloc, &shared, &claims, pass, seat, workers)?;
    let works = work(rt, alloc, &shared, &claims, requests, gate, shares)?;
    let (pass, seat, answers) = gather(&shared, &claims, works)?;
    all_drawn(&claims, seat);
    let replies = in_order(alloc, answers, requests.len())?;
    Ok(BatchResult {
        history: shared.close(pass),
        replies: Replies::from_vec(replies),
    })
}

/// A share for each worker, the first pass and seat among them.
fn shares<L: Language + Drop, R: Wait>(
    rt: &R,
    alloc: Global,
    site: &SharedSite<L>,
    claims: &Claims,
    mut pass: SitePass<L>,
    mut seat: ClaimSeat,
    workers: u32,
) -> Result<Shares<L>, Memory>
    requires pass { pass ≡ first_pass site.now (seen_by pass) }
    requires seat { seat ≡ first_seat claims.now }
    requires some { 1 ≤ workers }
    requires few { workers ≤ MOST_WORKERS }
    ensures { IfOk result (λ r. AreShares site.now (seen_by pass) claims.now workers r.items) }
{
    let mut shares = Vec::with_capacity(alloc, workers as usize)?;
    for _worker in 1..workers {
        let other = site.split(rt, &mut pass)?;
        let spare = claims.split(&mut seat)?;
        shares.push((other, spare))?;
    }
    shares.push((pass, seat))?;
    Ok(shares)
}

/// Has each share worked with.
fn work<L: Language + Drop + Sync, G: Gate + Sync, R: Threads + Wait + Sync>(
    rt: &R,
    alloc: Global,
    site: &SharedSite<L>,
    claims: &Claims,
    requests: &Requests,
    gate: &G,
    shares: Shares<L>,
) -> Result<Vec<FinishedOf<L>>, Memory>
where
    L::Site: Send + Sync,
    L::Catalog: Send,
    L::Fault: Send,
    requires shares { Each (IsIdle site.now claims.now) shares.items }
    requires numbers { claims.now.count ≡ length requests.now }
    requires facts { IsTrue (give_facts requests.now) }
    ensures { IfOk result (λ r. AreWorked L.meaning L.listed (all_asks requests.now) shares.items r.items) }
{
    let mut jobs = Vec::with_capacity(alloc, shares.len())?;
    for (pass, seat) in shares {
        jobs.push(Worker {
            alloc,
            site,
            claims,
            requests,
            gate,
            pass,
            seat,
        })?;
    }
    run_jobs(rt, alloc, jobs)
}

/// Runs the jobs, side by side where threads can be had.
fn run_jobs<'a, L: Language + Drop + Sync, G: Gate + Sync, R: Threads + Wait + Sync>(
    rt: &R,
    alloc: Global,
    jobs: Vec<Worker<'a, L, G>>,
) -> Result<Vec<FinishedOf<L>>, Memory>
where
    L::Site: Send + Sync,
    L::Catalog: Send,
    L::Fault: Send,
    ensures { IfOk result (λ done. AllZip (λ w out. HasWorked L.meaning L.listed (all_asks w.requests.now) w.pass w.seat out.pass out.seat
        (shown out.answers)) jobs.entry.items done.items) }
{
    Ok(run_waiting(rt, alloc, jobs)?)
}

/// A seat that stands for all seats, and found that no number is left, has each number once. It does nothing else.
fn all_drawn(claims: &Claims, mut seat: ClaimSeat)
    requires claims { seat.claims ≡ claims.now }
    requires all { seat.room + seat.held ≡ 65536 }
    requires past { claims.now.count ≤ seat.known }
    ensures { (i : ℕ) → times i seat.numbers ≡ below claims.now.count i }
{
    let _ = claims.next(&mut seat);
}
