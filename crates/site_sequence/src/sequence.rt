//! Requests that are answered one after another over one history.
ghost use Rattle.std.specs.Prelude.{◌≡◌, [], ◌∷◌, IfOk, IsTrue};
ghost use Rattle.res_core.specs.AskedFacts.{has_facts, asks_with_facts, give_facts};
ghost use Rattle.res_core.specs.RequestViews.{asked, wanted};
ghost use Rattle.site_core.specs.Asked.{compile as wants, plain, asks, all_asks};
ghost use Rattle.site_core.specs.Events.{opens};
ghost use Rattle.site_core.specs.Legal.{Legal};
ghost use Rattle.site_core.specs.Runs.{Whole};
ghost use Rattle.site_core.specs.declared.plain.Plain.TheVariants as ask;
ghost use Rattle.site_sequence.specs.Sequence.{Takes, AnsweredInTurn};

use pp_values::{Memory, Text};
use res_core::{CompileRequest, Request, Requests};
use site_core::{
    CoreState, History, Language, MOST_ENTRIES, PlainKind, Reply, ReplyOf, add, added,
    compile_under, served,
};
use site_replies::Replies;
use std::alloc::Global;

/// Who asks, and so makes the entries.
pub const AUTHOR: u32 = 0;

/// What came of requests to a site.
#[derive(Drop)]
pub struct SequenceResult<L: Language> {
    pub history: History<L::Site>,
    pub replies: Replies<L>,
}

/// Opens the site and answers the requests one after another, as author 0, whose work all of it is.
///
/// A request that meets want of memory is answered so, and the next one goes on.
pub fn run_sequence<L: Language>(
    alloc: Global,
    language: &L,
    site: L::Site,
    requests: &Requests,
) -> Result<SequenceResult<L>, Memory>
    requires { IsTrue (give_facts requests.now) }
    ensures in_turn { IfOk result (λ r.
        AnsweredInTurn L.meaning L.listed MOST_ENTRIES (opens site ∷ []) (all_asks requests.now) r.replies r.history.entries) }
    ensures legal { IfOk result (λ r. Legal L.meaning r.history.entries) }
    ensures whole { IfOk result (λ r.
        Whole L.meaning L.listed MOST_ENTRIES 1 site (all_asks requests.now) r.replies r.history.entries) }
{
    let mut core = CoreState::open(alloc, site, MOST_ENTRIES)?;
    let mut replies = Replies::new(alloc);
    let mut left = requests.as_slice();
    while let [request, after @ ..] = left {
        replies.push(answer(alloc, language, &mut core, request))?;
        left = after;
    }
    Ok(SequenceResult {
        history: core.into_history(),
        replies,
    })
}

/// Answers a request.
pub fn answer<L: Language>(
    alloc: Global,
    language: &L,
    core: &mut CoreState<L>,
    request: &Request,
) -> Reply<L>
    requires { IsTrue (asks_with_facts (asked request.now)) }
    ensures turn { Takes L.meaning L.listed core.old.limit core.old.history (asks (asked request.now)) result
        core.new.history }
    ensures limit { core.new.limit ≡ core.old.limit }
{
    match request {
        Request::Compile(request) => serve(alloc, language, core, request),
        Request::Deactivate(node) => deactivate(alloc, core, node),
    }
}

/// Answers a node that asks for its catalog, by all entries so far.
fn serve<L: Language>(
    alloc: Global,
    language: &L,
    core: &mut CoreState<L>,
    request: &CompileRequest,
) -> Reply<L>
    requires { IsTrue (has_facts (wanted request.now).facts) }
    ensures turn { Takes L.meaning L.listed core.old.limit core.old.history (wants (wanted request.now)) result
        core.new.history }
    ensures limit { core.new.limit ≡ core.old.limit }
{
    let Ok(snapshot) = core.snap(alloc) else {
        return ReplyOf::Memory;
    };
    let k = snapshot.k;
    match compile_under(alloc, language, snapshot, request) {
        Ok((catalog, addition)) => {
            let answer = add(alloc, core, AUTHOR, addition);
            served(k, catalog, answer)
        }
        Err(reply) => reply,
    }
}

/// Takes away what the node exports.
fn deactivate<L: Language>(alloc: Global, core: &mut CoreState<L>, node: &Text) -> Reply<L>
    ensures turn { Takes L.meaning L.listed core.old.limit core.old.history (plain (ask.Deactivate node.now)) result
        core.new.history }
    ensures limit { core.new.limit ≡ core.old.limit }
{
    let Ok(node) = node.copy(alloc) else {
        return ReplyOf::Memory;
    };
    added(
        PlainKind::Deactivation,
        core.deactivate(alloc, AUTHOR, node),
    )
}
