use am_base::NoMemory;
use am_base::body::Body;
use am_base::founding::Founding;
use am_base::items::Items;
use am_base::name::Name;
use am_calls::gate::NoHook;
use am_calls::plans::may_race;
use am_calls::race::race;
use am_group::event::Act;
use am_group::plan::{RacePlan, ThreadPlan};
use std::alloc::Global;
use std::sync::Wait;
use std::thread::Threads;

/// Place 0 sends, place 1 takes, each in a thread of its own; how many records they leave.
pub fn send_and_take<R: Threads + Wait + Sync>(
    rt: &R,
    alloc: Global,
    founding: Founding,
    body: Body,
) -> Result<usize, NoMemory> {
    let mut sends = Items::new(alloc);
    sends.push(Act::send(alloc, body)?)?;
    let mut takes = Items::new(alloc);
    takes.push(Act::Take)?;
    let mut threads = Items::new(alloc);
    threads.push(ThreadPlan {
        node: Name::of_byte(0),
        calls: sends,
    })?;
    threads.push(ThreadPlan {
        node: Name::of_byte(1),
        calls: takes,
    })?;
    let plan = RacePlan {
        founding,
        seed_number: 1,
        loss: 10,
        repeat: 5,
        turns: 200,
        threads,
    };
    if !may_race(&plan) {
        return Ok(0);
    }
    Ok(race(rt, alloc, &plan, &NoHook)?.records().len())
}
