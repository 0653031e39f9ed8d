//! A worker of a batch.
ghost use Rattle.std.specs.Prelude.{◌≡◌, ◌<◌, [], length, slice_get, Some, IsTrue};
ghost use Rattle.res_core.specs.RequestViews.{asked};
ghost use Rattle.res_core.specs.AskedFacts.{give_facts, asks_with_facts};
ghost use Rattle.site_core.specs.Asked.{asks};
ghost use Rattle.shared_site.specs.Known.{IsAnswered};

use crate::answered::Answered;
use crate::finished::Finished;
use res_core::{Request, Requests};
use shared_site::{SharedSite, SitePass};
use site_core::{Language, Reply};
use site_io::Gate;
use std::alloc::Global;
use std::sync::Wait;
use work_pool::{ClaimSeat, Claims, WaitingJob};

/// Draws numbers of requests, and answers these requests in the order in which it draws them.
#[derive(Drop)]
pub struct Worker<'a, L: Language, G> {
    pub alloc: Global,
    pub site: &'a SharedSite<L>,
    pub claims: &'a Claims,
    pub requests: &'a Requests,
    pub gate: &'a G,
    pub pass: SitePass<L>,
    pub seat: ClaimSeat,
    ghost of: { pass.site ≡ site.now },
    ghost numbers: { seat.claims ≡ claims.now },
    ghost idle: { seat.numbers ≡ [] },
    ghost count: { claims.now.count ≡ length requests.now },
    ghost facts: { IsTrue (give_facts requests.now) },
}

/// What a worker comes back with.
pub type FinishedOf<L> = Finished<SitePass<L>, Reply<L>>;

impl<'a, L: Language + Drop, G: Gate> WaitingJob for Worker<'a, L, G> {
    ghost use Rattle.std.specs.Prelude.{option_map};
    ghost use Rattle.site_core.specs.Asked.{all_asks};
    ghost use Rattle.site_batch.specs.Work.{HasWorked};

    type Out = FinishedOf<L>;

    ghost promise = { λ w out. HasWorked L.meaning L.listed (all_asks w.requests.now) w.pass w.seat out.pass
        out.seat (option_map (λ answers. answers.items) out.answers) };

    fn run<R: Wait>(self, rt: &R) -> FinishedOf<L> {
        let Worker {
            alloc,
            site,
            claims,
            requests,
            gate,
            mut pass,
            mut seat,
        } = self;
        pass.keeps();
        let mut answers = Vec::new(alloc);
        while let Some(index) = claims.next(&mut seat) {
            let request = request_at(requests, index);
            let reply = answer(rt, alloc, site, &mut pass, request, gate);
            pass.keeps();
            let Ok(()) = answers.push(Answered { index, reply }) else {
                return Finished {
                    pass,
                    seat,
                    answers: None,
                };
            };
        }
        Finished {
            pass,
            seat,
            answers: Some(answers),
        }
    }
}

/// The request with this number.
fn request_at(requests: &Requests, index: u32) -> &Request
    requires inside { index < length requests.now }
    requires facts { IsTrue (give_facts requests.now) }
    ensures at { slice_get requests.now index ≡ Some (asked result.now) }
    ensures facts { IsTrue (asks_with_facts (asked result.now)) }
{
    &requests.as_slice()[index as usize]
}

/// Answers a request.
fn answer<L: Language + Drop, G: Gate, R: Wait>(
    rt: &R,
    alloc: Global,
    site: &SharedSite<L>,
    pass: &mut SitePass<L>,
    request: &Request,
    gate: &G,
) -> Reply<L>
    requires site { pass.old.site ≡ site.now }
    requires facts { IsTrue (asks_with_facts (asked request.now)) }
    ensures { IsAnswered L.meaning L.listed (asks (asked request.now)) result pass.old pass.new }
{
    match request {
        Request::Compile(request) => site.serve_one(rt, alloc, pass, request, gate),
        Request::Deactivate(node) => site.deactivate(rt, alloc, pass, node),
    }
}
