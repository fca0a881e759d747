use am_base::NoMemory;
use am_base::founding::Founding;
use am_base::items::Items;
use am_base::name::Name;
use am_base::names::Names;
use am_calls::gate::TestHook;
use am_calls::plans::may_race;
use am_calls::race::race;
use am_group::event::{Act, By};
use am_group::plan::{RacePlan, ThreadPlan};
use std::alloc::Global;
use std::sync::Wait;
use std::sync::atomic::{AtomicU64, Ordering};
use std::test::*;
use std::thread::Threads;

/// The race of these threads, each at a name with so many receives.
pub fn plan_of(
    alloc: Global,
    founders: u16,
    threads: &[(u8, u32)],
    turns: u32,
) -> Result<RacePlan, Fail> {
    let founding = Founding::new(Names::of_mask(founders), 0, 64, 256).ok_or("a founding")?;
    Ok(RacePlan {
        founding,
        seed_number: 1,
        loss: 10,
        repeat: 5,
        turns,
        threads: threads_of(alloc, threads)?,
    })
}

/// Threads with so many receives each.
fn threads_of(alloc: Global, threads: &[(u8, u32)]) -> Result<Items<ThreadPlan>, NoMemory> {
    let mut all = Items::new(alloc);
    for (name, many) in threads {
        let node = Name::of_byte(*name);
        let calls = receives(alloc, *many)?;
        all.push(ThreadPlan { node, calls })?;
    }
    Ok(all)
}

/// So many receives.
fn receives(alloc: Global, many: u32) -> Result<Items<Act>, NoMemory> {
    let mut calls = Items::new(alloc);
    for _ in 0..many {
        calls.push(Act::Take)?;
    }
    Ok(calls)
}

/// How many records a race leaves; none where there was no memory, or it is none.
fn records_of<R: Threads + Wait + Sync, G: TestHook + Sync>(
    rt: &R,
    alloc: Global,
    plan: &RacePlan,
    gate: &G,
) -> usize {
    if !may_race(plan) {
        return 0;
    }
    match race(rt, alloc, plan, gate) {
        Ok(journal) => journal.records().len(),
        Err(_) => 0,
    }
}

/// Counts the acts that are done under two nodes' locks, and those of two callers.
#[derive(Drop)]
struct Counting {
    nodes: [AtomicU64; 2],
    callers: [AtomicU64; 2],
}

impl Counting {
    /// Of nobody yet.
    fn new() -> Counting {
        Counting {
            nodes: [AtomicU64::new(0), AtomicU64::new(0)],
            callers: [AtomicU64::new(0), AtomicU64::new(0)],
        }
    }

    /// What it counted of the nodes, and of the callers.
    fn counts(&self) -> [u64; 4] {
        [
            self.nodes[0].load(Ordering::SeqCst),
            self.nodes[1].load(Ordering::SeqCst),
            self.callers[0].load(Ordering::SeqCst),
            self.callers[1].load(Ordering::SeqCst),
        ]
    }
}

impl TestHook for Counting {
    fn between(&self, node: Name, by: &By) {
        self.nodes[usize::from(node.place() % 2)].fetch_add(1, Ordering::SeqCst);
        self.callers[(by.caller % 2) as usize].fetch_add(1, Ordering::SeqCst);
    }
}

// A second receive of a member that has nothing more to take makes its three turns, and takes nothing: the second caller, at
// the first node, has five records, and the first caller, at the second node, has one. Of a node's name only the place counts:
// the second caller's is of its place's second life, and asks the first one.
#[test]
fn each_act_passes_the_gate(rt: HostRuntime) -> Result<(), Fail> {
    let plan = plan_of(rt.alloc(), 3, &[(1, 1), (16, 2)], 3)?;
    let gate = Counting::new();
    assert!(rt; records_of(&rt, rt.alloc(), &plan, &gate) == 6);
    assert!(rt; gate.counts() == [5, 1, 1, 5]);
    Ok(())
}
