ghost use Rattle.std.specs.Prelude.{◌≡◌, ◌≤◌, IfOk, All, length};
ghost use Rattle.am_race_laws.specs.Ran.{fresh_caller, fresh_callers, caller_numbers};
ghost use Rattle.am_calls.specs.Jobs.{IsLeftBy};

use crate::caller::Caller;
use crate::crowd::gather;
use crate::gate::TestHook;
use crate::kernels::Kernels;
use crate::naming::Racing;
use crate::outset::Outset;
use am_base::NoMemory;
use am_group::plan::RacePlan;
use am_journal::journal::Journal;
use std::alloc::Global;
use std::marker::Brand;
use std::sync::Wait;
use std::thread;
use std::thread::Threads;

/// What callers do, each in a thread of its own.
pub trait Job {
    ghost use Rattle.std.specs.Prelude.{◌≡◌};
    ghost use Rattle.am_race_laws.specs.Callings.{Calling};
    ghost use Rattle.am_race_laws.specs.Ran.{fresh_caller};

    // What holds of a caller that has done it.
    ghost did: { Self → Calling → Type 0 };

    /// What a caller does, which has made no call yet: any calls, one after the other.
    fn run<R: Wait, N: Racing, G: TestHook>(
        &self,
        rt: &R,
        kernels: &Kernels<N, G>,
        caller: &mut Caller<N>,
    )
        requires fresh { caller.old ≡ fresh_caller caller.old.number }
        ensures number { caller.new.number ≡ caller.old.number }
        ensures done { did self.now caller.new };
}

/// Each caller does a job, in a thread of its own, once the others have begun too.
fn all_do<R: Threads + Wait + Sync, N: Racing + Send + Sync, G: TestHook + Sync, J: Job + Sync>(
    rt: &R,
    kernels: &Kernels<N, G>,
    job: &J,
    callers: Vec<Caller<N>>,
) -> Result<Vec<Caller<N>>, NoMemory>
    requires fresh { callers.items ≡ fresh_callers (length N.plan.threads) }
    ensures numbers { IfOk result (λ back. caller_numbers back.items ≡ caller_numbers callers.items) }
    ensures done { IfOk result (λ back. All (J.did job.now) back.items) }
{
    gather(rt, callers.len())?;
    let back = thread::map_vec(
        rt,
        callers,
        &|mut caller: Caller<N>| -> Caller<N>
            requires fresh { caller ≡ fresh_caller caller.number }
            ensures number { result.number ≡ caller.number }
            ensures done { J.did job.entry.now result }
        {
            kernels.crowd.begin();
            job.run(rt, kernels, &mut caller);
            kernels.crowd.end();
            caller
        },
    )?;
    Ok(back)
}

/// The callers of a plan do a job, over a fresh wire of it.
fn does_over<R: Threads + Wait + Sync, N: Racing + Send + Sync, G: TestHook + Sync, J: Job + Sync>(
    rt: &R,
    alloc: Global,
    gate: &G,
    job: &J,
    outset: Outset,
) -> Result<Journal, NoMemory>
    requires plan { outset.plan.now ≡ N.plan }
    requires wire { outset.wire.id ≡ N.wire }
    ensures founding { IfOk result (λ journal. journal.founding ≡ N.plan.founding) }
    ensures left { IfOk result (λ journal. IsLeftBy (J.did job.now) N.plan journal.records) }
{
    let (kernels, callers) = Kernels::<N, G>::start(alloc, gate, outset)?;
    let callers = all_do(rt, &kernels, job, callers)?;
    Ok(kernels.finish(rt, callers))
}

/// The callers of a plan, one for each of its threads, do a job at the plan's nodes, each in a thread of its own: they make what
/// calls they will, and the plan's lists of calls are not looked at. The journal that they leave is legal with the calls that
/// they made, and each caller has done the job. There is none where the race itself had no memory, or where the threads can't be
/// made.
pub fn let_do<R: Threads + Wait + Sync, G: TestHook + Sync, J: Job + Sync>(
    rt: &R,
    alloc: Global,
    plan: &RacePlan,
    gate: &G,
    job: &J,
) -> Result<Journal, NoMemory>
    requires few { length plan.now.threads ≤ 16 }
    ensures founding { IfOk result (λ journal. journal.founding ≡ plan.now.founding) }
    ensures left { IfOk result (λ journal. IsLeftBy (J.did job.now) plan.now journal.records) }
{
    does_over::<R, Brand, G, J>(rt, alloc, gate, job, Outset::of(alloc, plan)?)
}
