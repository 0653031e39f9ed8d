ghost use Rattle.std.specs.Prelude.{IfOk, IsTrue};
ghost use Rattle.site_core.specs.Events.{is_later};
ghost use Rattle.site_core.specs.EntryViews.{event_of};

use history_audit::{audit, verdict_text};
use pp_values::{Memory, Place, Text};
use res_core::{Attributes, ExportSet, Exported, Exports, PlainResource, Resource, Tags};
use sample_values::{kind, no_facts};
use site_core::{Entries, Entry, History};
use site_sequence::run_sequence;
use std::alloc::Global;
use std::sync::Arc;
use std::test::Fail;
use toy_language::{Toy, ToySite, requests, strict_site, toy_site};

fn no_exports(alloc: Global) -> ExportSet {
    ExportSet {
        items: Exports::new(alloc),
    }
}

/// One notice.
fn one_export(alloc: Global) -> Result<ExportSet, Memory> {
    let item = PlainResource::checked(Resource {
        kind: kind(alloc, "notify")?,
        title: Text::from_str(alloc, "n")?,
        attributes: Attributes::new(alloc),
        tags: Tags::new(alloc),
    })
    .ok_or(Memory)?;
    let node_place = Place {
        file: Text::from_str(alloc, "manifests/site.pp")?,
        line: 1,
    };
    let mut set = no_exports(alloc);
    set.items.push(Exported { node_place, item })?;
    Ok(set)
}

fn number(word: Option<&str>) -> u32 {
    word.unwrap_or("").parse().unwrap_or(0)
}

/// An entry in words: `empty 0 1 a 2`, a publication of no exports by author 0 as its call 1, for node `a` from the first
/// 2 entries; `one 0 1 a 2`, which exports a notice; `gone 0 1 a`; `strict 0 1`, the deployment of a strict site.
fn entry(alloc: Global, line: &str) -> Result<Entry<ToySite>, Memory>
    ensures { IfOk result (λ e. IsTrue (is_later (event_of e))) }
{
    let mut words = line.split_whitespace();
    let what = words.next().unwrap_or("");
    let author = number(words.next());
    let call = number(words.next());
    let node = words.next().unwrap_or("");
    let k = number(words.next());
    match what {
        "gone" => gone(alloc, author, call, node),
        "strict" => strict(alloc, author, call),
        "one" => published(alloc, author, call, node, k, one_export(alloc)?),
        _ => published(alloc, author, call, node, k, no_exports(alloc)),
    }
}

fn published(
    alloc: Global,
    author: u32,
    call: u32,
    node: &str,
    k: u32,
    set: ExportSet,
) -> Result<Entry<ToySite>, Memory>
    ensures { IfOk result (λ e. IsTrue (is_later (event_of e))) }
{
    let set = Arc::new(alloc, set)?;
    let node = Text::from_str(alloc, node)?;
    Ok(Entry::Publish {
        author,
        call,
        node,
        facts: no_facts(alloc),
        k,
        set,
    })
}

fn gone(alloc: Global, author: u32, call: u32, node: &str) -> Result<Entry<ToySite>, Memory>
    ensures { IfOk result (λ e. IsTrue (is_later (event_of e))) }
{
    let node = Text::from_str(alloc, node)?;
    Ok(Entry::Deactivate { author, call, node })
}

fn strict(alloc: Global, author: u32, call: u32) -> Result<Entry<ToySite>, Memory>
    ensures { IfOk result (λ e. IsTrue (is_later (event_of e))) }
{
    let site = Arc::new(alloc, strict_site(alloc))?;
    Ok(Entry::Deploy { author, call, site })
}

/// The history that a site was opened with, and these entries behind.
fn history(alloc: Global, lines: &str) -> Result<History<ToySite>, Memory> {
    let mut entries = Entries::open(alloc, Arc::new(alloc, toy_site(alloc))?)?;
    for line in lines.split(';') {
        if !line.is_empty() {
            entries.push(entry(alloc, line)?)?;
        }
    }
    Ok(History { entries })
}

fn is_told(alloc: Global, history: &History<ToySite>, want: &str) -> Result<bool, Memory> {
    if history.entries.len() > 1000 {
        return Err(Memory);
    }
    let verdict = audit(alloc, &Toy, history)?;
    let text = verdict_text(alloc, &verdict)?;
    Ok(text.as_str() == want)
}

fn audits(alloc: Global, lines: &str, want: &str) -> Result<bool, Memory> {
    is_told(alloc, &history(alloc, lines)?, want)
}

const AUDITS: [(&str, &str); 16] = [
    ("", "legal 1"),
    (
        "empty 0 0 a 1;empty 0 1 b 2;gone 0 2 a;empty 7 0 b 1",
        "legal 5",
    ),
    // A site that was deployed counts from then on, and a compile that had begun keeps the one before.
    ("strict 0 0;empty 0 1 a 2;empty 1 0 b 1", "legal 4"),
    ("empty 0 1 a 1", "entry 1 call"),
    ("empty 0 0 a 1;gone 0 0 a", "entry 2 call"),
    ("empty 0 0 a 1;gone 1 1 a", "entry 2 call"),
    ("empty 0 0 a 0", "entry 1 k"),
    ("empty 0 0 a 2", "entry 1 k"),
    ("empty 0 0 a 1;empty 0 1 a 4000000000", "entry 2 k"),
    ("empty 0 0 bad 1", "entry 1 fault"),
    ("strict 0 0;empty 0 1 b 1;empty 0 2 b 2", "entry 3 fault"),
    ("one 0 0 a 1", "entry 1 set"),
    // Of two entries the first one is told, and of two parts too.
    ("empty 0 0 a 1;one 1 0 b 1;empty 0 0 c 9", "entry 2 set"),
    ("one 0 1 a 0", "entry 1 call"),
    ("one 0 0 bad 0", "entry 1 k"),
    ("one 0 0 bad 1", "entry 1 fault"),
];

#[test]
fn audits_tell_the_first_broken_rule(rt: HostRuntime) -> Result<(), Fail> {
    for (lines, want) in AUDITS.iter() {
        assert!(rt; audits(rt.alloc(), lines, want)?, "{lines}");
    }
    Ok(())
}

/// The audit of what a sequence of requests made.
fn audits_sequence(alloc: Global, words: &str, want: &str) -> Result<bool, Memory> {
    let requests = requests(alloc, words)?;
    let came = run_sequence(alloc, &Toy, toy_site(alloc), &requests)?;
    is_told(alloc, &came.history, want)
}

const SEQUENCES: [(&str, &str); 3] = [
    ("", "legal 1"),
    ("a +b -a +b bad +bad", "legal 5"),
    ("a a a a a a a a a a a a a a a a a a a a", "legal 21"),
];

#[test]
fn what_sequences_make_is_legal(rt: HostRuntime) -> Result<(), Fail> {
    for (words, want) in SEQUENCES.iter() {
        assert!(rt; audits_sequence(rt.alloc(), words, want)?, "{words}");
    }
    Ok(())
}
