//! A wave of which one turn waits for another.
ghost use Rattle.std.specs.Prelude.{◌≡◌, [], ◌∷◌, codes, IfOk};
ghost use Rattle.wave_tests.specs.Samples.{held_notify};

use agent_machine::{Holds, Machine, MachineDoc, WideMachine, Wrote};
use agent_transaction::RunStop;
use pp_values::{Kind, Memory, Reference, Text, Value};
use res_core::{
    Attributes, Catalog, EdgeList, Held, HeldList, Indexes, LogLines, PlainResource, Resource, Tags,
};
use std::alloc::Global;
use std::sync::Arc;
use std::sync::atomic::{AtomicU64, Ordering};
use std::test::Fail;
use std::thread;
use std::thread::Threads;
use wide_apply::run_wide;

/// How far the refreshes have come.
#[derive(Drop)]
struct Begun {
    /// How often the first refresh looks.
    looks: u32,
    /// How many have begun.
    count: AtomicU64,
    /// 1 if the first one saw the second one begin.
    met: AtomicU64,
}

/// How often the first refresh looks, where there are processors for two turns at once.
const LOOKS: u32 = 1_000_000_000;

impl Begun {
    /// Looks until a second refresh has begun.
    fn look(&self) {
        for _look in 0..self.looks {
            if self.count.load(Ordering::SeqCst) >= 2 {
                self.met.store(1, Ordering::SeqCst);
                return;
            }
        }
    }

    /// Whether two refreshes have begun, and the first one saw the second one begin.
    fn have_met(&self) -> bool {
        self.count.load(Ordering::SeqCst) == 2 && self.met.load(Ordering::SeqCst) == 1
    }
}

/// A machine whose first refresh does not end before a second one has begun, on whichever part, or it has looked for
/// that long enough. It tells nothing of what it holds.
#[derive(Drop)]
struct Meeting {
    begun: Arc<Begun>,
}

impl Machine for Meeting {
    ghost use Rattle.std.specs.Prelude.{None};

    ghost state = { λ _. record { content = None; faults = 0 } };

    fn load(&mut self, _document: MachineDoc) {}

    fn holds(&mut self, _what: &Reference, _name: &Text, _value: &Value) -> Holds {
        Holds::Yes
    }

    fn write(&mut self, _what: &Reference, _name: &Text, _value: &Value) -> Wrote {
        Wrote::Done
    }

    fn refresh(&mut self, _what: &Reference) -> Holds {
        if self.begun.count.fetch_add(1, Ordering::SeqCst) == 0 {
            self.begun.look();
        }
        Holds::Yes
    }

    fn document(&self) -> Option<&MachineDoc> {
        None
    }
}

impl WideMachine for Meeting {
    type Part = Meeting;

    fn part(&mut self, _what: &Reference, _creates: Option<&Text>) -> Result<Meeting, Memory> {
        let begun = self.begun.clone()?;
        Ok(Meeting { begun })
    }

    fn put_back(&mut self, _what: &Reference, _part: Meeting) -> Result<(), Memory> {
        Ok(())
    }
}

fn none_begun(alloc: Global, looks: u32) -> Result<Arc<Begun>, Memory> {
    let count = AtomicU64::new(0);
    let met = AtomicU64::new(0);
    Ok(Arc::new(alloc, Begun { looks, count, met })?)
}

/// A `notify`, which nothing contains.
fn notify(alloc: Global, title: &str) -> Result<Held, Memory>
    ensures { IfOk result (λ h. h ≡ held_notify title.now) }
{
    let resource = Resource {
        kind: Kind::from_str(alloc, "notify")?,
        title: Text::from_str(alloc, title)?,
        attributes: Attributes::new(alloc),
        tags: Tags::new(alloc),
    };
    Ok(Held {
        item: PlainResource::new(resource),
        inside: Indexes::new(alloc),
    })
}

/// Two resources of which none comes before the other.
fn two_notifies(alloc: Global) -> Result<HeldList, Memory>
    ensures { IfOk result (λ l. l ≡ held_notify (codes "a") ∷ held_notify (codes "b") ∷ []) }
{
    let mut items = Vec::new(alloc);
    items.push(notify(alloc, "a")?)?;
    items.push(notify(alloc, "b")?)?;
    Ok(HeldList::from_vec(items))
}

fn no_edges(alloc: Global) -> EdgeList
    ensures { result ≡ [] }
{
    EdgeList::new(alloc)
}

fn catalog(alloc: Global) -> Result<Catalog, Memory> {
    let node = Text::from_str(alloc, "n")?;
    let resources = two_notifies(alloc)?;
    let edges = no_edges(alloc);
    let log = LogLines::new(alloc);
    Ok(Catalog::new(node, resources, edges, log))
}

/// There is one processor, so no thread is started for a wave, and its turns are taken one after another.
fn has_one_processor<R: Threads>(rt: &R) -> bool {
    match thread::available_parallelism(rt) {
        Ok(count) => count.get() == 1,
        Err(_) => false,
    }
}

/// Whether the refresh of one of two resources, whose turns two workers take, saw that of the other begin, if there are
/// processors for two.
fn meet<R: Threads>(rt: &R, alloc: Global) -> Result<bool, Memory> {
    let is_alone = has_one_processor(rt);
    let begun = none_begun(alloc, if is_alone { 1 } else { LOOKS })?;
    let catalog = catalog(alloc)?;
    let mut machine = Meeting {
        begun: begun.clone()?,
    };
    match run_wide(rt, alloc, &catalog, &mut machine, 2) {
        Ok(report) => Ok(report.lines.len() == 2 && (is_alone || begun.have_met())),
        Err(RunStop::Cycle(_cycle)) => Ok(false),
        Err(RunStop::Memory) => Err(Memory),
    }
}

#[test]
fn wave_overlaps(rt: HostRuntime) -> Result<(), Fail> {
    assert!(rt; meet(&rt, rt.alloc())?);
    Ok(())
}
