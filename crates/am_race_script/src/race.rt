ghost use Rattle.std.specs.Prelude.{◌≡◌, ◌≤◌, ◌<◌, ◌+◌, ◌*◌, ◌^◌, length, IfOk};
ghost use Rattle.am_script.specs.Seen.{seen, items_seen};
ghost use Rattle.am_script_defs.specs.Refusals.{Answers};
ghost use Rattle.am_script_defs.specs.Values.{items_read_from};
ghost use Rattle.am_script_defs.specs.Races.{most_turns, call_from, calls_from, parts_of_thread, thread_from, each_thread, threads_from, calls_in_all, of_right_size, parts_of_race, race_from};

use crate::call::call;
use am_base::items::Items;
use am_base::limits::MOST_EVENTS;
use am_base::name::Name;
use am_group::event::Act;
use am_group::plan::{RacePlan, ThreadPlan};
use am_script::fields::{known, number_in, number_or, object, value_in};
use am_script::founding::founding;
use am_script::tree::items;
use am_script_defs::key::ScriptKey;
use am_script_defs::refusal::{Read, ScriptRefusal};
use json::Value;
use std::alloc::Global;

/// The keys of a thread.
const THREAD_KEYS: [ScriptKey; 2] = [ScriptKey::Node, ScriptKey::Calls];

/// The keys of a race.
const RACE_KEYS: [ScriptKey; 9] = [
    ScriptKey::Founders,
    ScriptKey::Resilience,
    ScriptKey::Window,
    ScriptKey::PbUpTo,
    ScriptKey::Seed,
    ScriptKey::Loss,
    ScriptKey::Repeat,
    ScriptKey::Turns,
    ScriptKey::Threads,
];

/// The most letters of a hundred that are lost.
const MOST_LOST: u64 = 50;

/// The most letters of a hundred that are repeated.
const MOST_REPEATED: u64 = 40;

/// The most turns of a call.
const MOST_TURNS: u64 = 10_000;

/// The most calls of a race.
const MOST_CALLS: u64 = 1_000;

/// The calls that values tell, in order, of which the first has this number.
fn each_call(alloc: Global, list: &[Value], first: u64, founding: u8) -> Read<Items<Act>>
    requires founding { founding ≤ 15 }
    requires first { first ≤ 2 ^ 63 }
    ensures { Answers (items_read_from (call_from founding) first (items_seen list.now)) result }
{
    let mut calls = Items::new(alloc);
    for (before, value) in list.iter().enumerate() {
        calls.push(call(alloc, value, first + before as u64, founding)?)?;
    }
    Ok(calls)
}

/// The calls of a thread.
#[tactic(auto, unfolding(am_script_defs::specs::Races::calls_from))]
fn calls(alloc: Global, value: &Value, first: u64, founding: u8) -> Read<Items<Act>>
    requires founding { founding ≤ 15 }
    requires first { first ≤ 2 ^ 63 }
    ensures { Answers (calls_from founding first (seen value.now)) result }
{
    let Some(list) = items(value) else {
        return Err(ScriptRefusal::bad_value(ScriptKey::Calls, 0));
    };
    each_call(alloc, list, first, founding)
}

/// A thread's parts.
#[tactic(auto, unfolding(am_script_defs::specs::Races::parts_of_thread))]
fn parts_of_thread(alloc: Global, value: &Value, first: u64, founding: u8) -> Read<ThreadPlan>
    requires founding { founding ≤ 15 }
    requires first { first ≤ 2 ^ 63 }
    ensures { Answers (parts_of_thread founding first (seen value.now)) result }
{
    let node = number_in(value, ScriptKey::Node, 0, 0, 15)?;
    let list = value_in(value, ScriptKey::Calls, 0)?;
    let calls = calls(alloc, list, first, founding)?;
    Ok(ThreadPlan {
        node: Name::of_byte(node as u8),
        calls,
    })
}

/// A thread, whose first call has this number.
#[tactic(auto, unfolding(am_script_defs::specs::Races::thread_from))]
fn thread(alloc: Global, value: &Value, first: u64, founding: u8) -> Read<ThreadPlan>
    requires founding { founding ≤ 15 }
    requires first { first ≤ 2 ^ 63 }
    ensures { Answers (thread_from founding first (seen value.now)) result }
{
    object(value, ScriptKey::Threads, 0)?;
    known(&THREAD_KEYS, value, 0)?;
    parts_of_thread(alloc, value, first, founding)
}

/// The threads that values tell, in order, whose calls are counted from 1 over all of them.
fn each_thread(alloc: Global, list: &[Value], founding: u8) -> Read<Items<ThreadPlan>>
    requires founding { founding ≤ 15 }
    requires few { length list.now ≤ 16 }
    ensures { Answers (each_thread founding 1 (items_seen list.now)) result }
{
    let mut threads = Items::new(alloc);
    let mut first = 1;
    for value in list {
        let thread = thread(alloc, value, first, founding)?;
        first += thread.calls.as_slice().len() as u64;
        threads.push(thread)?;
    }
    Ok(threads)
}

/// The threads of a race: 1 to 16.
#[tactic(auto, using(am_script::proofs::Json::items_len_of_items_seen), unfolding(am_script_defs::specs::Races::threads_from))]
fn threads(alloc: Global, value: &Value, founding: u8) -> Read<Items<ThreadPlan>>
    requires { founding ≤ 15 }
    ensures { Answers (threads_from founding (seen value.now)) result }
{
    let Some(list) = items(value) else {
        return Err(ScriptRefusal::bad_value(ScriptKey::Threads, 0));
    };
    if list.is_empty() || 16 < list.len() {
        return Err(ScriptRefusal::out_of_range(ScriptKey::Threads, 0, list.len() as u64, 1, 16));
    }
    each_thread(alloc, list, founding)
}

/// How many calls threads have in all.
fn calls_of(threads: &[ThreadPlan]) -> u64
    requires { length threads.now ≤ 16 }
    ensures { result ≡ calls_in_all threads.now }
{
    let mut count = 0;
    for thread in threads {
        count += thread.calls.as_slice().len() as u64;
    }
    count
}

/// The race, where it has no more calls than there may be, and no more records.
#[tactic(auto, unfolding(am_script_defs::specs::Races::of_right_size))]
fn of_right_size(plan: RacePlan) -> Read<RacePlan>
    requires threads { length plan.threads ≤ 16 }
    requires turns { plan.turns ≤ most_turns }
    ensures { result ≡ of_right_size plan }
{
    let calls = calls_of(plan.threads.as_slice());
    if MOST_CALLS < calls {
        return Err(ScriptRefusal::out_of_range(ScriptKey::Threads, 0, calls, 0, MOST_CALLS));
    }
    let records = calls * (u64::from(plan.turns) + 2);
    let most = MOST_EVENTS as u64;
    if most < records {
        return Err(ScriptRefusal::out_of_range(ScriptKey::Threads, 0, records, 0, most));
    }
    Ok(plan)
}

/// A race's parts.
#[tactic(auto, using(am_script_defs::proofs::RaceLimits::threads_read_le_sixteen), unfolding(am_script_defs::specs::Races::parts_of_race))]
fn parts(alloc: Global, value: &Value) -> Read<RacePlan>
    ensures { Answers (parts_of_race (seen value.now)) result }
{
    let founding = founding(value)?;
    let seed_number = number_in(value, ScriptKey::Seed, 0, 0, u64::MAX)?;
    let loss = number_or(0, value, ScriptKey::Loss, 0, 0, MOST_LOST)?;
    let repeat = number_or(0, value, ScriptKey::Repeat, 0, 0, MOST_REPEATED)?;
    let turns = number_or(200, value, ScriptKey::Turns, 0, 1, MOST_TURNS)?;
    let list = value_in(value, ScriptKey::Threads, 0)?;
    let threads = threads(alloc, list, founding.resilience())?;
    of_right_size(RacePlan {
        founding,
        seed_number,
        loss: loss as u32,
        repeat: repeat as u32,
        turns: turns as u32,
        threads,
    })
}

/// A race: how its group begins, by which numbers its chooser chooses, and its threads with their calls. A refusal but
/// NoMemory is the first cause that the value tells none.
#[tactic(auto, unfolding(am_script_defs::specs::Races::race_from))]
pub fn race(alloc: Global, value: &Value) -> Read<RacePlan>
    ensures { Answers (race_from (seen value.now)) result }
{
    object(value, ScriptKey::Race, 0)?;
    known(&RACE_KEYS, value, 0)?;
    parts(alloc, value)
}
