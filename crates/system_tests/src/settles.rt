//! Searches for a fixed point over the toy language.
ghost use Rattle.std.specs.Prelude.{◌≡◌, [], ◌∷◌, codes, IfOk};

use history_tools::{SettleEnd, SettleResult, settle};
use pp_values::{Memory, Text, Texts};
use site_io::OpenGate;
use std::alloc::Global;
use std::sync::Wait;
use std::test::Fail;
use std::thread::Threads;
use toy_language::{Toy, toy_site, write_entries};

/// The node that a toy site lists.
fn listed_nodes(alloc: Global) -> Result<Texts, Memory>
    ensures { IfOk result (λ nodes. nodes ≡ codes "a" ∷ []) }
{
    let mut nodes = Texts::new(alloc);
    nodes.push(Text::from_str(alloc, "a")?)?;
    Ok(nodes)
}

/// A search of two rounds at most, by one worker.
fn two_rounds<R: Threads + Wait + Sync>(
    rt: &R,
    alloc: Global,
) -> Result<SettleResult<Toy>, Memory> {
    let nodes = listed_nodes(alloc)?;
    settle(rt, alloc, Toy, toy_site(alloc), &nodes, 2, 1, &OpenGate)
}

/// Whether it ends as settled after the second round, with this history.
fn is_settled<R: Threads + Wait + Sync>(rt: &R, alloc: Global, want: &str) -> Result<bool, Memory> {
    let came = two_rounds(rt, alloc)?;
    let mut out = String::new(alloc);
    write_entries(&mut out, came.history.entries.as_slice())?;
    let settled = matches!(came.end, SettleEnd::Settled);
    Ok(settled && came.rounds == 2 && out.as_str() == want)
}

#[test]
fn one_worker_is_one_author_in_all_rounds(rt: HostRuntime) -> Result<(), Fail> {
    let want = "open;publish 0 0 a 1;publish 0 1 a 2;";
    assert!(rt; is_settled(&rt, rt.alloc(), want)?, "{want}");
    Ok(())
}
