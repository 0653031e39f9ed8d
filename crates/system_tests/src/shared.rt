//! Calls of a site that threads share, over the toy language.
ghost use Rattle.std.specs.Prelude.{◌≡◌, ◌≤◌, ◌<◌, IfOk, IsTrue, option_map};
ghost use Rattle.pp_values.specs.Views.{view};
ghost use Rattle.res_core.specs.RequestViews.{wanted};
ghost use Rattle.res_core.specs.AskedFacts.{has_facts};
ghost use Rattle.site_core.specs.declared.history.TheConstants.{MOST_ENTRIES};
ghost use Rattle.shared_site.specs.Known.{held};

use agent_machine::{Report, ReportLines};
use pp_values::{Memory, Text, Value};
use res_core::CompileRequest;
use sample_values::no_facts;
use shared_site::{Reply, ReplyOf, SharedSite, SitePass};
use site_io::{Gate, OpenGate};
use std::alloc::Global;
use std::sync::{Mutex, Wait};
use std::test::Fail;
use toy_language::{Toy, strict_site, toy_site, write_entries, write_reply};

fn opened(alloc: Global, limit: u32) -> Result<(SharedSite<Toy>, SitePass<Toy>), Memory>
    requires low { 1 ≤ limit }
    requires high { limit ≤ MOST_ENTRIES }
    ensures { IfOk result (λ r.
        (r.1.site ≡ r.0) × (r.1.room ≡ 65535) × (held r.1 ≡ 1) × (r.1.terms.limit ≡ limit)) }
{
    SharedSite::open(alloc, Toy, toy_site(alloc), limit)
}

fn asking(
    alloc: Global,
    node: &str,
    facts: Option<Value>,
    seen: u32,
) -> Result<CompileRequest, Memory>
    requires { IsTrue (has_facts (option_map view facts)) }
    ensures { IfOk result (λ r. IsTrue (has_facts (wanted r).facts)) }
{
    let node = Text::from_str(alloc, node)?;
    Ok(CompileRequest { node, facts, seen })
}

/// A node that asks: `a` with no facts, `+a` with facts that are given, `a/2` by one who knows of 2 entries.
fn asked(alloc: Global, event: &str) -> Result<CompileRequest, Memory>
    ensures { IfOk result (λ r. IsTrue (has_facts (wanted r).facts)) }
{
    if let Some(node) = event.strip_prefix("+") {
        return asking(alloc, node, Some(no_facts(alloc)), 0);
    }
    match event.split_once('/') {
        Some((node, seen)) => asking(alloc, node, None, seen.parse().unwrap_or(0)),
        None => asking(alloc, event, None, 0),
    }
}

fn report(alloc: Global, node: &str) -> Result<Report, Memory> {
    Ok(Report {
        node: Text::from_str(alloc, node)?,
        lines: ReportLines::from_vec(Vec::new(alloc)),
    })
}

/// One call: a compile, `-a` to deactivate node `a`, `!` to deploy the strict site, or `?a` to file a report of node
/// `a`.
fn play<G: Gate, R: Wait>(
    rt: &R,
    alloc: Global,
    site: &SharedSite<Toy>,
    pass: &mut SitePass<Toy>,
    event: &str,
    gate: &G,
) -> Result<Reply<Toy>, Memory>
    requires { pass.old.site ≡ site.now }
    ensures site { pass.new.site ≡ site.now }
    ensures share { (pass.new.room ≡ pass.old.room) × (pass.new.numbers ≡ pass.old.numbers) }
    ensures terms { pass.new.terms ≡ pass.old.terms }
{
    if let Some(node) = event.strip_prefix("-") {
        let node = Text::from_str(alloc, node)?;
        return Ok(site.deactivate(rt, alloc, pass, &node));
    }
    if event == "!" {
        return Ok(site.deploy(rt, alloc, pass, strict_site(alloc)));
    }
    if let Some(node) = event.strip_prefix("?") {
        let report = report(alloc, node)?;
        return Ok(site.file_report(rt, alloc, pass, report));
    }
    let request = asked(alloc, event)?;
    Ok(site.serve_one(rt, alloc, pass, &request, gate))
}

/// Plays the events in turn, and writes the replies.
fn play_all<R: Wait>(
    rt: &R,
    alloc: Global,
    out: &mut String,
    site: &SharedSite<Toy>,
    pass: &mut SitePass<Toy>,
    events: &str,
) -> Result<(), Memory>
    requires { pass.old.site ≡ site.now }
    ensures site { pass.new.site ≡ site.now }
    ensures share { (pass.new.room ≡ pass.old.room) × (pass.new.numbers ≡ pass.old.numbers) }
    ensures terms { pass.new.terms ≡ pass.old.terms }
{
    for event in events.split_whitespace() {
        let reply = play(rt, alloc, site, pass, event, &OpenGate)?;
        write_reply(out, &reply)?;
    }
    Ok(())
}

/// Whether the events come to these replies and this history.
fn comes_to<R: Wait>(
    rt: &R,
    alloc: Global,
    limit: u32,
    events: &str,
    want: &str,
) -> Result<bool, Memory> {
    if limit < 1 || limit > 1000 {
        return Err(Memory);
    }
    let (site, mut pass) = opened(alloc, limit)?;
    let mut out = String::new(alloc);
    play_all(rt, alloc, &mut out, &site, &mut pass, events)?;
    let history = site.close(pass);
    write_entries(&mut out, history.entries.as_slice())?;
    Ok(out.as_str() == want)
}

const CALLS: [(u32, &str, &str); 7] = [
    // Facts are listed for node `a` alone. What a node exports is found from its next call on.
    (
        9,
        "a +b a",
        "served 1 1 false;served 2 2 true;served 3 3 true;open;publish 0 0 a 1;publish 0 1 b 2;publish 0 2 a 3;",
    ),
    // What is refused adds no entry.
    (
        9,
        "+bad b a/1 a/3",
        "refused 1 bad;unknown 1;served 1 1 false;ahead 2;open;publish 0 0 a 1;",
    ),
    // A full history takes no entry, and the other refusals come before.
    (
        2,
        "a a -a +bad b a/3",
        "served 1 1 false;full 2;full 2;refused 2 bad;unknown 2;ahead 2;open;publish 0 0 a 1;",
    ),
    (1, "a -a ! ?a", "full 1;full 1;full 1;full 1;open;"),
    // A node's set ends, and so may one that it never had.
    (
        9,
        "a -a +b -none",
        "served 1 1 false;deactivated 2;served 3 3 false;deactivated 4;open;publish 0 0 a 1;gone 0 1 a;publish 0 2 b 3;gone 0 3 none;",
    ),
    // A site that is deployed counts from the next call on. What nodes export stays.
    (
        9,
        "a +b ! +b a",
        "served 1 1 false;served 2 2 true;deployed 3;refused 4 b;served 4 4 true;open;publish 0 0 a 1;publish 0 1 b 2;deploy 0 2;publish 0 3 a 4;",
    ),
    // A report changes neither the site nor a set, though its node exports something.
    (
        9,
        "?a a ?a +b",
        "reported 1;served 2 2 false;reported 3;served 4 4 true;open;report 0 0 a;publish 0 1 a 2;report 0 2 a;publish 0 3 b 4;",
    ),
];

#[test]
fn calls_are_answered(rt: HostRuntime) -> Result<(), Fail> {
    for (limit, events, want) in CALLS.iter() {
        assert!(rt;
            comes_to(&rt, rt.alloc(), *limit, events, want)?,
            "{events}"
        );
    }
    Ok(())
}

/// A second caller, with a pass of its own.
#[derive(Drop)]
struct Guest<'a> {
    site: &'a SharedSite<Toy>,
    pass: SitePass<Toy>,
    reply: Reply<Toy>,
    ghost here: { pass.site ≡ site.now },
}

/// Lets the guest play an event, where a compile has begun and not ended.
struct Doorway<'a> {
    alloc: Global,
    event: &'a str,
    guest: Mutex<Guest<'a>>,
}

impl<'a> Gate for Doorway<'a> {
    fn between<R: Wait>(&self, rt: &R) {
        let mut guest = self.guest.lock(rt);
        let guest = &mut *guest;
        let site = guest.site;
        let reply = play(rt, self.alloc, site, &mut guest.pass, self.event, &OpenGate);
        guest.reply = reply.unwrap_or(ReplyOf::Memory);
    }
}

/// Plays an event of the first pass, and in the middle of it one of another. Writes the reply to the inner event and
/// then that to the outer one.
fn nest<R: Wait>(
    rt: &R,
    alloc: Global,
    out: &mut String,
    site: &SharedSite<Toy>,
    pass: &mut SitePass<Toy>,
    outer: &str,
    inner: &str,
) -> Result<(), Memory>
    requires { (pass.old.site ≡ site.now) × (0 < pass.old.room) }
    ensures { IfOk result (λ _. pass.new.site ≡ site.now) }
{
    let second = site.split(rt, pass)?;
    let guest = Guest {
        site,
        pass: second,
        reply: ReplyOf::Memory,
    };
    let gate = Doorway {
        alloc,
        event: inner,
        guest: Mutex::new(guest),
    };
    let reply = play(rt, alloc, site, pass, outer, &gate);
    let Doorway {
        alloc: _,
        event: _,
        guest,
    } = gate;
    let Guest {
        site: _,
        pass: _,
        reply: within,
    } = guest.into_inner();
    write_reply(out, &within)?;
    write_reply(out, &reply?)?;
    Ok(())
}

/// Whether the events before, an event with another in its middle, and the events after come to these replies.
fn nested_comes_to<R: Wait>(
    rt: &R,
    alloc: Global,
    limit: u32,
    events: &[&str; 4],
    want: &str,
) -> Result<bool, Memory> {
    if limit < 1 || limit > 1000 {
        return Err(Memory);
    }
    let [before, outer, inner, after] = events;
    let (site, mut pass) = opened(alloc, limit)?;
    let mut out = String::new(alloc);
    play_all(rt, alloc, &mut out, &site, &mut pass, before)?;
    nest(rt, alloc, &mut out, &site, &mut pass, outer, inner)?;
    play_all(rt, alloc, &mut out, &site, &mut pass, after)?;
    Ok(out.as_str() == want)
}

/// In the history and for the replies, the inner event comes first.
const NESTED: [(u32, [&str; 4], &str); 7] = [
    // The call that ends first has the first entry, and the other one is not refused. There was one inner call.
    (
        9,
        ["", "a", "a", "-none"],
        "served 1 1 false;served 2 1 false;deactivated 3;",
    ),
    // A catalog is made from the entries at the beginning of its call, whatever comes meanwhile.
    (
        9,
        ["", "+b", "a", "+b"],
        "served 1 1 false;served 2 1 false;served 3 3 true;",
    ),
    // Whoever publishes last counts, though its reading is the older one.
    (
        9,
        ["a", "a", "-a", "+b"],
        "served 1 1 false;deactivated 2;served 3 2 true;served 4 4 true;",
    ),
    // A second pass sees what came before, though it makes its first call only now. A refused compile has a middle too.
    (
        9,
        ["a", "+bad", "+b", "-none"],
        "served 1 1 false;served 2 2 true;refused 2 bad;deactivated 3;",
    ),
    // A compile that has begun keeps the site that it began with, whatever is deployed meanwhile.
    (
        9,
        ["", "+b", "!", "+b"],
        "deployed 1;served 2 1 false;refused 3 b;",
    ),
    (
        9,
        ["!", "+b", "?b", "a"],
        "deployed 1;reported 2;refused 2 b;served 3 3 false;",
    ),
    // The last place goes to the call that ends first.
    (2, ["", "a", "a", "a"], "served 1 1 false;full 2;full 2;"),
];

#[test]
fn a_call_ends_in_the_middle_of_another(rt: HostRuntime) -> Result<(), Fail> {
    for (limit, events, want) in NESTED.iter() {
        assert!(rt;
            nested_comes_to(&rt, rt.alloc(), *limit, events, want)?,
            "{want}"
        );
    }
    Ok(())
}

/// Whether the events before, and after a resumption those of a first pass and of a second one, come to these replies
/// and this history.
fn resumed_comes_to<R: Wait>(
    rt: &R,
    alloc: Global,
    events: &[&str; 3],
    want: &str,
) -> Result<bool, Memory> {
    let [before, first, second] = events;
    let mut out = String::new(alloc);
    let (site, mut pass) = opened(alloc, 9)?;
    play_all(rt, alloc, &mut out, &site, &mut pass, before)?;
    let Ok((site, mut pass)) = SharedSite::resume(alloc, Toy, site.close(pass), 9) else {
        return Err(Memory);
    };
    let mut other = site.split(rt, &mut pass)?;
    play_all(rt, alloc, &mut out, &site, &mut pass, first)?;
    play_all(rt, alloc, &mut out, &site, &mut other, second)?;
    site.join(&mut pass, other);
    let history = site.close(pass);
    write_entries(&mut out, history.entries.as_slice())?;
    Ok(out.as_str() == want)
}

const RESUMED: [([&str; 3], &str); 2] = [
    // New authors come behind all that have entries, and sets and site go on.
    (
        ["a ! -none", "+b a", "-a"],
        "served 1 1 false;deployed 2;deactivated 3;refused 4 b;served 4 4 true;deactivated 5;open;publish 0 0 a 1;deploy 0 1;gone 0 2 none;publish 1 0 a 4;gone 2 0 a;",
    ),
    // Where nobody has an entry they begin with 0.
    (
        ["", "a", "?a"],
        "served 1 1 false;reported 2;open;publish 0 0 a 1;report 1 0 a;",
    ),
];

#[test]
fn a_history_is_gone_on_with(rt: HostRuntime) -> Result<(), Fail> {
    for (events, want) in RESUMED.iter() {
        assert!(rt; resumed_comes_to(&rt, rt.alloc(), events, want)?, "{want}");
    }
    Ok(())
}

/// Whether after the events a second pass is told that just these of the nodes `a` and `b` export something.
fn have_sets<R: Wait>(rt: &R, alloc: Global, events: &str, want: &str) -> Result<bool, Memory> {
    let (site, mut pass) = opened(alloc, 9)?;
    let mut other = site.split(rt, &mut pass)?;
    let mut out = String::new(alloc);
    play_all(rt, alloc, &mut out, &site, &mut pass, events)?;
    let sets = site.sets(rt, alloc, &mut other)?;
    let mut nodes = String::new(alloc);
    for node in ["a", "b"].iter() {
        if sets.get(&Text::from_str(alloc, node)?).is_some() {
            nodes.push_str(node)?;
        }
    }
    Ok(nodes.as_str() == want && other.seen() == pass.seen())
}

const SETS: [(&str, &str); 3] = [("", ""), ("a +b", "ab"), ("a +b ! -a ?a", "b")];

#[test]
fn sets_are_told(rt: HostRuntime) -> Result<(), Fail> {
    for (events, want) in SETS.iter() {
        assert!(rt; have_sets(&rt, rt.alloc(), events, want)?, "{events}");
    }
    Ok(())
}
