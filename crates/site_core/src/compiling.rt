//! How a request is answered, but for the two moments at which it meets the history: what a compile comes to under its
//! snapshot, and what is replied after the entry was to be added.
ghost use Rattle.std.specs.Prelude.{◌≡◌, IfSome, IsTrue, option_map};
ghost use Rattle.pp_values.specs.Facts.{are_facts};
ghost use Rattle.pp_values.specs.Views.{view};
ghost use Rattle.res_core.specs.AskedFacts.{has_facts};
ghost use Rattle.res_core.specs.RequestViews.{wanted};
ghost use Rattle.site_core.specs.Compiling.{ComesTo, stop_reply, served_reply, added_reply};
ghost use Rattle.site_core.specs.Fits.{facts_for};
ghost use Rattle.site_core.specs.Said.{plain_reply as reply_of};

use crate::addition::Addition;
use crate::compile_stop::CompileStop;
use crate::done_stop::DoneStop;
use crate::language::Language;
use crate::plain::PlainKind;
use crate::reply::{Reply, ReplyOf};
use crate::snapshot::Snapshot;
use pp_values::{Value, copy};
use res_core::CompileRequest;
use std::alloc::Global;

/// Compiles the node under the snapshot: its catalog with what is to be published, or the reply, where nothing is.
pub fn compile_under<L: Language>(
    alloc: Global,
    language: &L,
    snapshot: Snapshot<L::Site>,
    request: &CompileRequest,
) -> Result<(L::Catalog, Addition<L::Site>), Reply<L>>
    requires { IsTrue (has_facts (wanted request.now).facts) }
    ensures { ComesTo L.meaning L.listed (wanted request.now) snapshot result }
{
    let k = snapshot.k;
    if request.seen > k {
        return Err(ReplyOf::SeenAhead { length: k });
    }
    let Some(facts) = facts_for(language, &snapshot.site, request) else {
        return Err(ReplyOf::UnknownNode { k });
    };
    let answer = language.compile(
        alloc,
        &snapshot.site,
        &request.node,
        facts,
        &snapshot.version,
    );
    let (catalog, set) = match answer {
        Ok(compiled) => compiled,
        Err(CompileStop::Fault(fault)) => return Err(ReplyOf::Refused { k, fault }),
        Err(CompileStop::Memory) => return Err(ReplyOf::Memory),
    };
    let Ok(node) = request.node.copy(alloc) else {
        return Err(ReplyOf::Memory);
    };
    let Ok(facts) = copy(alloc, facts) else {
        return Err(ReplyOf::Memory);
    };
    let addition = Addition::Publication {
        node,
        facts,
        snapshot,
        set,
    };
    Ok((catalog, addition))
}

// The facts that count: those of the request, else those that the site lists for its node.
fn facts_for<'a, L: Language>(
    language: &L,
    site: &'a L::Site,
    request: &'a CompileRequest,
) -> Option<&'a Value>
    requires { IsTrue (has_facts (wanted request.now).facts) }
    ensures these { option_map (λ v. view v.now) result ≡ facts_for L.listed site.now (wanted request.now) }
    ensures facts { IfSome result (λ v. IsTrue (are_facts (view v.now))) }
{
    match &request.facts {
        Some(facts) => Some(facts),
        None => language.facts_of(site, &request.node),
    }
}

/// The reply to a compile under the first `k` entries, by what came of adding its publication.
pub fn served<C, F>(k: u32, catalog: C, answer: Result<u32, DoneStop>) -> ReplyOf<C, F>
where
    C: Drop,
    ensures { result ≡ served_reply k catalog answer }
{
    match answer {
        Ok(entry) => ReplyOf::Served { entry, k, catalog },
        Err(stop) => stopped(stop),
    }
}

/// The reply where a plain entry of this kind is asked for, by what came of adding it.
pub fn added<C, F>(kind: PlainKind, answer: Result<u32, DoneStop>) -> ReplyOf<C, F>
    ensures { result ≡ added_reply kind answer }
{
    match answer {
        Ok(entry) => plain_reply(kind, entry),
        Err(stop) => stopped(stop),
    }
}

fn plain_reply<C, F>(kind: PlainKind, entry: u32) -> ReplyOf<C, F>
    ensures { result ≡ reply_of kind entry }
{
    match kind {
        PlainKind::Deactivation => ReplyOf::Deactivated { entry },
        PlainKind::Deployment => ReplyOf::Deployed { entry },
        PlainKind::Filing => ReplyOf::Reported { entry },
    }
}

// The reply that tells why no entry was added.
fn stopped<C, F>(stop: DoneStop) -> ReplyOf<C, F>
    ensures { result ≡ stop_reply stop }
{
    match stop {
        DoneStop::Full(length) => ReplyOf::HistoryFull { length },
        DoneStop::Memory => ReplyOf::Memory,
    }
}
