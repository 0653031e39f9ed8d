ghost use Rattle.std.specs.Prelude.{◌≤◌};
ghost use Rattle.site_core.specs.declared.history.TheConstants.{MOST_ENTRIES};
ghost use Rattle.site_core.specs.Snapshots.{Of};

use pp_values::{Memory, Text};
use sample_values::no_facts;
use site_core::{CompileStop, CoreState, DoneStop, Language, Reply, ReplyOf, Snapshot};
use std::alloc::Global;
use std::test::Fail;
use toy_language::{Toy, toy_site, write_entries, write_reply};

fn opened(alloc: Global, limit: u32) -> Result<CoreState<Toy>, Memory>
    requires low { 1 ≤ limit }
    requires high { limit ≤ MOST_ENTRIES }
{
    CoreState::open(alloc, toy_site(alloc), limit)
}

/// A compile from its beginning to its end.
fn serve(
    alloc: Global,
    core: &mut CoreState<Toy>,
    author: u32,
    node: &str,
) -> Result<Reply<Toy>, Memory> {
    let node = Text::from_str(alloc, node)?;
    let snapshot = core.snap(alloc)?;
    finish(alloc, &Toy, core, author, node, snapshot)
}

/// The end of a compile that began with this snapshot.
fn finish<L: Language>(
    alloc: Global,
    language: &L,
    core: &mut CoreState<L>,
    author: u32,
    node: Text,
    snapshot: Snapshot<L::Site>,
) -> Result<Reply<L>, Memory>
    requires { Of snapshot core.old.history }
{
    let facts = no_facts(alloc);
    let k = snapshot.k;
    match language.compile(alloc, &snapshot.site, &node, &facts, &snapshot.version) {
        Ok((catalog, set)) => match core.done(alloc, author, node, facts, snapshot, set) {
            Ok(entry) => Ok(ReplyOf::Served { entry, k, catalog }),
            Err(DoneStop::Full(length)) => Ok(ReplyOf::HistoryFull { length }),
            Err(DoneStop::Memory) => Ok(ReplyOf::Memory),
        },
        Err(CompileStop::Fault(fault)) => {
            core.drop_call(snapshot);
            Ok(ReplyOf::Refused { k, fault })
        }
        Err(CompileStop::Memory) => Ok(ReplyOf::Memory),
    }
}

fn remove(
    alloc: Global,
    core: &mut CoreState<Toy>,
    author: u32,
    node: &str,
) -> Result<Reply<Toy>, Memory> {
    let node = Text::from_str(alloc, node)?;
    Ok(match core.deactivate(alloc, author, node) {
        Ok(entry) => ReplyOf::Deactivated { entry },
        Err(DoneStop::Full(length)) => ReplyOf::HistoryFull { length },
        Err(DoneStop::Memory) => ReplyOf::Memory,
    })
}

/// One event: `a` is a compile of node `a`, `-a` its deactivation.
fn play(
    alloc: Global,
    core: &mut CoreState<Toy>,
    author: u32,
    event: &str,
) -> Result<Reply<Toy>, Memory> {
    match event.strip_prefix("-") {
        Some(node) => remove(alloc, core, author, node),
        None => serve(alloc, core, author, event),
    }
}

/// Plays the events, each by its author in turn, and writes the replies.
fn play_all(
    alloc: Global,
    out: &mut String,
    core: &mut CoreState<Toy>,
    authors: &[u32],
    events: &str,
) -> Result<(), Memory> {
    for (author, event) in authors.iter().zip(events.split_whitespace()) {
        let reply = play(alloc, core, *author, event)?;
        write_reply(out, &reply)?;
    }
    Ok(())
}

/// Whether the events come to these replies and this history.
fn comes_to(
    alloc: Global,
    limit: u32,
    authors: &[u32],
    events: &str,
    want: &str,
) -> Result<bool, Memory> {
    if limit < 1 || limit > 1000 {
        return Err(Memory);
    }
    let mut core = opened(alloc, limit)?;
    let mut out = String::new(alloc);
    play_all(alloc, &mut out, &mut core, authors, events)?;
    let history = core.into_history();
    write_entries(&mut out, history.entries.as_slice())?;
    Ok(out.as_str() == want)
}

const HISTORIES: [(u32, [u32; 6], &str, &str); 4] = [
    // A set comes and goes.
    (
        5,
        [0; 6],
        "a b -a b",
        "served 1 1 false;served 2 2 true;deactivated 3;served 4 4 false;open;publish 0 0 a 1;publish 0 1 b 2;gone 0 2 a;publish 0 3 b 4;",
    ),
    // A full history takes no entry; a fault comes before that.
    (
        2,
        [0; 6],
        "a a -a bad",
        "served 1 1 false;full 2;full 2;refused 2 bad;open;publish 0 0 a 1;",
    ),
    // A fault adds no entry.
    (
        3,
        [0; 6],
        "bad -none",
        "refused 1 bad;deactivated 1;open;gone 0 0 none;",
    ),
    // Each author numbers its calls.
    (
        9,
        [7, 0, 7, 7, 0, 0],
        "a a a a a -a",
        "served 1 1 false;served 2 2 true;served 3 3 true;served 4 4 true;served 5 5 true;deactivated 6;open;publish 7 0 a 1;publish 0 0 a 2;publish 7 1 a 3;publish 7 2 a 4;publish 0 1 a 5;gone 0 2 a;",
    ),
];

#[test]
fn histories_grow_by_events(rt: HostRuntime) -> Result<(), Fail> {
    for (limit, authors, events, want) in HISTORIES.iter() {
        assert!(rt;
            comes_to(rt.alloc(), *limit, authors.as_slice(), events, want)?,
            "{events}"
        );
    }
    Ok(())
}
