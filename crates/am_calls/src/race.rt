ghost use Rattle.std.specs.List.{list_all};
ghost use Rattle.std.specs.Prelude.{◌≡◌, ◌≤◌, true, IfOk, Some, map, length, slice_get, All};
ghost use Rattle.am_base.specs.Most.{most_events_of_run};
ghost use Rattle.am_race_laws.specs.Legal.{IsLegalWithTags};
ghost use Rattle.am_race_laws.specs.Plans.{calls_of, is_call, MayRace, ArePlayed};
ghost use Rattle.am_race_laws.specs.Ran.{fresh_caller, fresh_callers, caller_numbers, HasRun, ends_thread, first_refusal};

use crate::caller::Caller;
use crate::crowd::gather;
use crate::gate::TestHook;
use crate::kernels::Kernels;
use crate::naming::Racing;
use crate::outset::Outset;
use am_base::NoMemory;
use am_group::plan::{RacePlan, ThreadPlan};
use am_journal::journal::Journal;
use am_race_laws::answer::CallAnswer;
use am_shared_journal_defs::terms::WireRefusal;
use std::alloc::Global;
use std::marker::Brand;
use std::sync::Wait;
use std::thread;
use std::thread::Threads;

/// A caller whose thread has ended, with the refusal that ended it, if one did.
#[derive(Drop)]
struct EndedCaller<N: Racing> {
    caller: Caller<N>,
    refusal: Option<WireRefusal>,
}

/// Whether a thread ends with this answer.
fn is_last(answer: &CallAnswer) -> bool
    ensures { result ≡ ends_thread answer.now }
{
    matches!(
        answer,
        CallAnswer::Late { .. }
            | CallAnswer::PutOff { .. }
            | CallAnswer::Stopped
            | CallAnswer::Spent
            | CallAnswer::NoMemory
    )
}

/// A thread makes its calls, as far as they go on.
fn play<R: Wait, N: Racing, G: TestHook>(
    rt: &R,
    kernels: &Kernels<N, G>,
    thread: &ThreadPlan,
    mut caller: Caller<N>,
) -> EndedCaller<N>
    requires fresh { caller ≡ fresh_caller caller.number }
    requires its { slice_get N.plan.threads caller.number ≡ Some thread.now }
    requires calls { list_all is_call thread.now.calls ≡ true }
    requires few { length thread.now.calls ≤ most_events_of_run }
    ensures number { result.caller.number ≡ caller.number }
    ensures ran { HasRun N.plan result.caller result.refusal }
{
    for act in thread.calls.as_slice() {
        let answer = kernels.make(rt, &mut caller, thread.node, act);
        if is_last(&answer) {
            let refusal = answer.as_refusal();
            return EndedCaller { caller, refusal };
        }
    }
    EndedCaller {
        caller,
        refusal: None,
    }
}

/// A caller makes the calls of its thread.
fn make_calls<R: Wait, N: Racing, G: TestHook>(
    rt: &R,
    kernels: &Kernels<N, G>,
    threads: &[ThreadPlan],
    caller: Caller<N>,
) -> EndedCaller<N>
    requires plan { MayRace N.plan }
    requires threads { threads.now ≡ N.plan.threads }
    requires fresh { caller ≡ fresh_caller caller.number }
    ensures number { result.caller.number ≡ caller.number }
    ensures ran { HasRun N.plan result.caller result.refusal }
{
    match threads.get(caller.number() as usize) {
        Some(thread) => play(rt, kernels, thread, caller),
        None => EndedCaller {
            caller,
            refusal: None,
        },
    }
}

/// Each caller makes the calls of its thread, in a thread of its own, once the others have begun too.
fn all_run<R: Threads + Wait + Sync, N: Racing + Send + Sync, G: TestHook + Sync>(
    rt: &R,
    kernels: &Kernels<N, G>,
    threads: &[ThreadPlan],
    callers: Vec<Caller<N>>,
) -> Result<Vec<EndedCaller<N>>, NoMemory>
    requires plan { MayRace N.plan }
    requires threads { threads.now ≡ N.plan.threads }
    requires fresh { callers.items ≡ fresh_callers (length N.plan.threads) }
    ensures numbers { IfOk result (λ ran. map (λ r. r.caller.number) ran.items
        ≡ caller_numbers callers.items) }
    ensures ran { IfOk result (λ ran. All (λ r. HasRun N.plan r.caller r.refusal) ran.items) }
{
    gather(rt, callers.len())?;
    let ran = thread::map_vec(
        rt,
        callers,
        &|caller: Caller<N>| -> EndedCaller<N>
            requires plan { MayRace N.plan }
            requires threads { threads.now ≡ N.plan.threads }
            requires fresh { caller ≡ fresh_caller caller.number }
            ensures number { result.caller.number ≡ caller.number }
            ensures ran { HasRun N.plan result.caller result.refusal }
        {
            kernels.crowd.begin();
            let ran = make_calls(rt, kernels, threads, caller);
            kernels.crowd.end();
            ran
        },
    )?;
    Ok(ran)
}

/// The callers, and a refusal that ended one, if one did.
fn apart<N: Racing>(
    alloc: Global,
    ran: Vec<EndedCaller<N>>,
) -> Result<(Vec<Caller<N>>, Option<WireRefusal>), NoMemory>
    ensures callers { IfOk result (λ r. r.0.items ≡ map (λ one. one.caller) ran.items) }
    ensures refusal { IfOk result (λ r. r.1 ≡ first_refusal (map (λ one. one.refusal) ran.items)) }
{
    let mut callers = Vec::with_capacity(alloc, ran.len())?;
    let mut refusal = None;
    for one in ran {
        refusal = refusal.or(one.refusal);
        callers.push_reserved(one.caller);
    }
    Ok((callers, refusal))
}

/// The race of a plan, over a fresh wire of it. The journal is never full, since all calls together have room in it.
fn race_over<R: Threads + Wait + Sync, N: Racing + Send + Sync, G: TestHook + Sync>(
    rt: &R,
    alloc: Global,
    gate: &G,
    outset: Outset,
) -> Result<Journal, NoMemory>
    requires plan { outset.plan.now ≡ N.plan }
    requires wire { outset.wire.id ≡ N.wire }
    requires within { MayRace N.plan }
    ensures founding { IfOk result (λ journal. journal.founding ≡ N.plan.founding) }
    ensures legal { IfOk result (λ journal. IsLegalWithTags N.plan
        (calls_of N.plan) journal.records) }
    ensures played { IfOk result (λ journal. ArePlayed N.plan journal.records) }
{
    let plan = outset.plan;
    let (kernels, callers) = Kernels::<N, G>::start(alloc, gate, outset)?;
    let ran = all_run(rt, &kernels, plan.threads.as_slice(), callers)?;
    let (callers, refusal) = apart(alloc, ran)?;
    let journal = kernels.finish(rt, callers);
    match refusal {
        None => Ok(journal),
        Some(WireRefusal::NoMemory) => Err(NoMemory),
        Some(WireRefusal::Spent) => unreachable!(),
    }
}

/// Does a race (docs/PROTOCOL.md, "Races"): a thread for each thread plan makes its calls, and the journal that they leave is
/// legal with their tags. Each thread's calls are done as far as they go on. There is no journal where a call, or the race
/// itself, had no memory, or where the threads can't be made.
pub fn race<R: Threads + Wait + Sync, G: TestHook + Sync>(
    rt: &R,
    alloc: Global,
    plan: &RacePlan,
    gate: &G,
) -> Result<Journal, NoMemory>
    requires within { MayRace plan.now }
    ensures founding { IfOk result (λ journal. journal.founding ≡ plan.now.founding) }
    ensures legal { IfOk result (λ journal. IsLegalWithTags plan.now
        (calls_of plan.now) journal.records) }
    ensures played { IfOk result (λ journal. ArePlayed plan.now journal.records) }
{
    race_over::<R, Brand, G>(rt, alloc, gate, Outset::of(alloc, plan)?)
}
