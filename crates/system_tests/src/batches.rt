//! Batches over a language whose compiles wait for one another, and over the toy language.
ghost use Rattle.std.specs.Prelude.{◌≤◌, length, IfOk, IsTrue};
ghost use Rattle.res_core.specs.AskedFacts.{give_facts};

use export_store::Version;
use pp_values::{Memory, Text, Value};
use res_core::{ExportSet, Exports, Requests};
use site_batch::{BatchResult, resume_batch, run_batch};
use site_core::{CompileStop, Language, SiteStop};
use site_io::OpenGate;
use std::alloc::Global;
use std::sync::atomic::{AtomicU64, Ordering};
use std::sync::{Arc, Wait};
use std::test::Fail;
use std::thread::Threads;
use toy_language::{Toy, ToySite, requests, toy_site, write_entries, write_reply};

/// How far the compiles have come.
#[derive(Drop)]
struct Begun {
    /// How many have begun.
    count: AtomicU64,
    /// 1 if the first one saw the third one begin.
    met: AtomicU64,
}

/// How often the first compile looks.
const LOOKS: u32 = 1_000_000_000;

impl Begun {
    /// Looks until a third compile has begun.
    fn look(&self) {
        for _look in 0..LOOKS {
            if self.count.load(Ordering::SeqCst) >= 3 {
                self.met.store(1, Ordering::SeqCst);
                return;
            }
        }
    }

    /// Whether four compiles have begun, and the first one saw the third one begin.
    fn have_met(&self) -> bool {
        self.count.load(Ordering::SeqCst) == 4 && self.met.load(Ordering::SeqCst) == 1
    }
}

/// A language whose first compile does not end before a third one has begun, or it has looked for that long enough. Each
/// node has the same catalog, and exports nothing.
#[derive(Drop)]
struct Meeting {
    begun: Arc<Begun>,
}

impl Language for Meeting {
    type Site = ToySite;

    type Catalog = bool;

    type Fault = Text;

    ghost use Rattle.std.specs.Prelude.{◌≡◌, IfOk, IfSome, IsTrue, Ok, None, [], true, codes, option_map};

    ghost meaning = { λ _ _ _ _. Ok (true, record { items = [] }) };

    ghost listed = { λ _ _. None };

    ghost said_site = { λ _. None };

    ghost site_form = { λ _. [] };

    ghost catalog_form = { λ _. [] };

    ghost fault_form = { λ fault. fault };

    fn compile(
        &self,
        alloc: Global,
        _site: &ToySite,
        _node: &Text,
        _facts: &Value,
        _sets: &Version,
    ) -> Result<(bool, ExportSet), CompileStop<Text>> {
        if self.begun.count.fetch_add(1, Ordering::SeqCst) == 0 {
            self.begun.look();
        }
        Ok((
            true,
            ExportSet {
                items: Exports::new(alloc),
            },
        ))
    }

    fn facts_of<'a>(&self, _site: &'a ToySite, _node: &Text) -> Option<&'a Value> {
        None
    }

    fn site_of(&self, _alloc: Global, _body: &[u8]) -> Result<ToySite, SiteStop> {
        Err(SiteStop::Bad)
    }

    fn site_text(&self, alloc: Global, _site: &ToySite) -> Result<Text, Memory> {
        Text::from_str(alloc, "")
    }

    fn catalog_text(&self, alloc: Global, _catalog: &bool) -> Result<Text, Memory> {
        Text::from_str(alloc, "")
    }

    fn fault_text(&self, alloc: Global, fault: &Text) -> Result<Text, Memory> {
        fault.copy(alloc)
    }
}

fn none_begun(alloc: Global) -> Result<Arc<Begun>, Memory> {
    let count = AtomicU64::new(0);
    let met = AtomicU64::new(0);
    Ok(Arc::new(alloc, Begun { count, met })?)
}

/// At most four requests: a batch takes no more than a history may have entries.
fn few_requests(alloc: Global, words: &str) -> Result<Requests, Memory>
    ensures few { IfOk result (λ r. length r ≤ 4) }
    ensures facts { IfOk result (λ r. IsTrue (give_facts r)) }
{
    let requests = requests(alloc, words)?;
    if requests.len() > 4 {
        return Err(Memory);
    }
    Ok(requests)
}

/// The batch of four compiles which two workers share out.
fn four_compiles<R: Threads + Wait + Sync>(
    rt: &R,
    alloc: Global,
    begun: Arc<Begun>,
) -> Result<BatchResult<Meeting>, Memory> {
    let requests = few_requests(alloc, "+a +b +c +d")?;
    let site = toy_site(alloc);
    run_batch(rt, alloc, Meeting { begun }, site, &requests, 2, &OpenGate)
}

/// Whether the first of four compiles, which two workers share out, saw the third one begin.
fn meet<R: Threads + Wait + Sync>(rt: &R, alloc: Global) -> Result<bool, Memory> {
    let begun = none_begun(alloc)?;
    let came = four_compiles(rt, alloc, Arc::try_clone(&begun)?)?;
    Ok(came.replies.len() == 4 && came.history.entries.len() == 5 && begun.have_met())
}

#[test]
fn two_compiles_overlap(rt: HostRuntime) -> Result<(), Fail> {
    assert!(rt; meet(&rt, rt.alloc())?);
    Ok(())
}

/// A batch of these requests, and one more that goes on from its history.
fn two_batches<R: Threads + Wait + Sync>(
    rt: &R,
    alloc: Global,
    before: &str,
    after: &str,
) -> Result<BatchResult<Toy>, Memory> {
    let first = few_requests(alloc, before)?;
    let second = few_requests(alloc, after)?;
    let came = run_batch(rt, alloc, Toy, toy_site(alloc), &first, 1, &OpenGate)?;
    let BatchResult {
        history,
        replies: _,
    } = came;
    match resume_batch(rt, alloc, Toy, history, &second, 1, &OpenGate) {
        Ok(came) => Ok(came),
        Err(_) => Err(Memory),
    }
}

/// Whether they come to these replies of the second one, and to this history.
fn goes_on<R: Threads + Wait + Sync>(
    rt: &R,
    alloc: Global,
    words: &[&str; 2],
    want: &str,
) -> Result<bool, Memory> {
    let [before, after] = words;
    let came = two_batches(rt, alloc, before, after)?;
    let mut out = String::new(alloc);
    for reply in came.replies.as_slice() {
        write_reply(&mut out, reply)?;
    }
    write_entries(&mut out, came.history.entries.as_slice())?;
    Ok(out.as_str() == want)
}

const RESUMED: [([&str; 2], &str); 2] = [
    (
        ["a +b", "a/3 -b"],
        "served 3 3 true;deactivated 4;open;publish 0 0 a 1;publish 0 1 b 2;publish 1 0 a 3;gone 1 1 b;",
    ),
    (["", "a"], "served 1 1 false;open;publish 0 0 a 1;"),
];

#[test]
fn a_batch_goes_on_from_a_history(rt: HostRuntime) -> Result<(), Fail> {
    for (words, want) in RESUMED.iter() {
        assert!(rt; goes_on(&rt, rt.alloc(), words, want)?, "{want}");
    }
    Ok(())
}
