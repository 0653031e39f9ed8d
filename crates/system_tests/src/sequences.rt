use pp_values::Memory;
use site_core::{CoreState, Reply};
use site_sequence::{answer, run_sequence};
use std::alloc::Global;
use std::test::Fail;
use toy_language::{Toy, request, requests, toy_site, write_entries, write_reply};

fn write_replies(out: &mut String, replies: &[Reply<Toy>]) -> Result<(), Memory> {
    for reply in replies {
        write_reply(out, reply)?;
    }
    Ok(())
}

// Whether the requests come to these replies and this history.
fn comes_to(alloc: Global, words: &str, want: &str) -> Result<bool, Memory> {
    let requests = requests(alloc, words)?;
    let came = run_sequence(alloc, &Toy, toy_site(alloc), &requests)?;
    let mut out = String::new(alloc);
    write_replies(&mut out, came.replies.as_slice())?;
    write_entries(&mut out, came.history.entries.as_slice())?;
    Ok(out.as_str() == want)
}

const SEQUENCES: [(&str, &str); 9] = [
    ("", "open;"),
    (
        "a +b -a +b",
        "served 1 1 false;served 2 2 true;deactivated 3;served 4 4 false;open;publish 0 0 a 1;publish 0 1 b 2;gone 0 2 a;publish 0 3 b 4;",
    ),
    // No facts are listed for it; the facts that are given count.
    ("b", "unknown 1;open;"),
    ("+b", "served 1 1 false;open;publish 0 0 b 1;"),
    // The first cause decides.
    ("b/2", "ahead 1;open;"),
    ("b/1", "unknown 1;open;"),
    ("bad", "unknown 1;open;"),
    // A refused compile publishes nothing.
    (
        "+bad a +bad",
        "refused 1 bad;served 1 1 false;refused 2 bad;open;publish 0 0 a 1;",
    ),
    (
        "-none a/2 a/4",
        "deactivated 1;served 2 2 false;ahead 3;open;gone 0 0 none;publish 0 1 a 2;",
    ),
];

#[test]
fn requests_are_answered_in_turn(rt: HostRuntime) -> Result<(), Fail> {
    for (words, want) in SEQUENCES.iter() {
        assert!(rt; comes_to(rt.alloc(), words, want)?, "{words}");
    }
    Ok(())
}

// Answers the requests over a history that may have 2 entries.
fn answer_all(alloc: Global, out: &mut String, words: &str) -> Result<(), Memory> {
    let mut core: CoreState<Toy> = CoreState::open(alloc, toy_site(alloc), 2)?;
    for word in words.split_whitespace() {
        let request = request(alloc, word)?;
        let reply = answer(alloc, &Toy, &mut core, &request);
        write_reply(out, &reply)?;
    }
    Ok(())
}

fn answers(alloc: Global, words: &str, want: &str) -> Result<bool, Memory> {
    let mut out = String::new(alloc);
    answer_all(alloc, &mut out, words)?;
    Ok(out.as_str() == want)
}

const FULL: [(&str, &str); 6] = [
    ("a a", "served 1 1 false;full 2;"),
    ("a -a", "served 1 1 false;full 2;"),
    ("-b -a", "deactivated 1;full 2;"),
    ("a +bad", "served 1 1 false;refused 2 bad;"),
    ("a b", "served 1 1 false;unknown 2;"),
    ("a a/3", "served 1 1 false;ahead 2;"),
];

#[test]
fn a_full_history_comes_after_other_causes(rt: HostRuntime) -> Result<(), Fail> {
    for (words, want) in FULL.iter() {
        assert!(rt; answers(rt.alloc(), words, want)?, "{words}");
    }
    Ok(())
}
