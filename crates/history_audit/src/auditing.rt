ghost use Rattle.std.specs.Prelude.{◌≡◌, ◌<◌, ◌≤◌, [], ◌∷◌, List, length, IfOk, IsTrue};
ghost use Rattle.std.specs.Arc.{arc_value};
ghost use Rattle.std.specs.List.{list_all};
ghost use Rattle.pp_values.specs.Facts.{are_facts};
ghost use Rattle.pp_values.specs.Views.{view};
ghost use Rattle.site_core.specs.EntryViews.{event_of, events_of};
ghost use Rattle.site_core.specs.Events.{Event, opens, is_later};
ghost use Rattle.site_core.specs.declared.history.TheConstants.{MOST_ENTRIES};
ghost use Rattle.history_audit.specs.Audits.{wrong_call, wrong_exports, broken_part, audited_from, audited};
ghost use Rattle.history_audit.specs.Pasts.{Keeps};

use crate::past::Past;
use crate::stage::Stage;
use crate::verdict::{Part, Verdict};
use export_store::is_same_set;
use pp_values::{Memory, Text, Value};
use res_core::ExportSet;
use site_core::{CompileStop, Entry, History, Language};
use std::alloc::Global;
use std::sync::Arc;

/// Looks at each entry of a history again, from the first to the last, and compiles each publication again: whether the
/// history is legal, and if not, which entry is the first that breaks a rule, and which rule.
pub fn audit<L: Language>(
    alloc: Global,
    language: &L,
    history: &History<L::Site>,
) -> Result<Verdict, Memory>
    requires { length history.now.entries ≤ MOST_ENTRIES }
    ensures { IfOk result (λ v. v ≡ audited L.meaning history.now.entries) }
{
    match history.entries.as_slice() {
        [first, after @ ..] => match first {
            Entry::Open { site } => audit_behind(alloc, language, site, after),
            _ => Ok(Verdict::Broken {
                entry: 0,
                part: Part::Call,
            }),
        },
        [] => Ok(Verdict::Broken {
            entry: 0,
            part: Part::Call,
        }),
    }
}

/// The entries behind the one that opens this site.
fn audit_behind<L: Language>(
    alloc: Global,
    language: &L,
    site: &Arc<L::Site>,
    entries: &[Entry<L::Site>],
) -> Result<Verdict, Memory>
    requires later { IsTrue (list_all is_later (events_of entries.now)) }
    requires few { length entries.now < MOST_ENTRIES }
    ensures { IfOk result (λ v. v ≡ audited_from L.meaning (opens (arc_value site.now) ∷ []) (events_of entries.now)) }
{
    let mut past = Past::open(alloc, site)?;
    let mut number = 1;
    let mut left = entries;
    while let [entry, after @ ..] = left {
        if let Some(part) = broken_part(alloc, language, &past, entry)? {
            return Ok(Verdict::Broken {
                entry: number,
                part,
            });
        }
        past.add(alloc, entry)?;
        number += 1;
        left = after;
    }
    Ok(Verdict::Legal(number))
}

/// What the first rule speaks of that the entry breaks behind those that were looked at, if it breaks one.
fn broken_part<L: Language>(
    alloc: Global,
    language: &L,
    past: &Past<L::Site>,
    entry: &Entry<L::Site>,
) -> Result<Option<Part>, Memory>
    requires { IsTrue (is_later (event_of entry.now)) }
    ensures { (h : List (Event L.Site)) → Keeps past.now h →
        IfOk result (λ part. part ≡ broken_part L.meaning h (event_of entry.now)) }
{
    match entry {
        Entry::Open { .. } => Ok(Some(Part::Call)),
        Entry::Publish {
            author,
            call,
            node,
            facts,
            k,
            set,
        } => {
            if let Some(part) = wrong_call(past, *author, *call) {
                return Ok(Some(part));
            }
            match past.stage(*k) {
                Some(stage) => wrong_exports(alloc, language, stage, node, facts, set),
                None => Ok(Some(Part::K)),
            }
        }
        Entry::Deactivate { author, call, .. } => Ok(wrong_call(past, *author, *call)),
        Entry::Deploy { author, call, .. } => Ok(wrong_call(past, *author, *call)),
        Entry::Report { author, call, .. } => Ok(wrong_call(past, *author, *call)),
    }
}

// `Call`, unless it is the number of the author's next entry.
fn wrong_call<S>(past: &Past<S>, author: u32, call: u32) -> Option<Part>
    ensures { (h : List (Event S)) → Keeps past.now h → result ≡ wrong_call h author call }
{
    if call == past.count(author) {
        None
    } else {
        Some(Part::Call)
    }
}

// `Fault` or `Set`, unless the set is what the node exports under this stage.
fn wrong_exports<L: Language>(
    alloc: Global,
    language: &L,
    stage: &Stage<L::Site>,
    node: &Text,
    facts: &Value,
    set: &ExportSet,
) -> Result<Option<Part>, Memory>
    requires { IsTrue (are_facts (view facts.now)) }
    ensures { IfOk result (λ part. part
        ≡ wrong_exports (L.meaning (arc_value stage.now.site) node.now (view facts.now) stage.now.version) set.now) }
{
    match language.compile(alloc, &stage.site, node, facts, &stage.version) {
        Ok((_catalog, made)) => {
            if is_same_set(&made, set) {
                Ok(None)
            } else {
                Ok(Some(Part::Set))
            }
        }
        Err(CompileStop::Fault(_fault)) => Ok(Some(Part::Fault)),
        Err(CompileStop::Memory) => Err(Memory),
    }
}
