ghost use Rattle.std.specs.Prelude.{◌≡◌};

use crate::calls::plan_of;
use am_base::NoMemory;
use am_base::body::Body;
use am_base::entry::Entry;
use am_base::name::Name;
use am_calls::caller::Caller;
use am_calls::gate::{NoHook, TestHook};
use am_calls::job::{Job, let_do};
use am_calls::kernels::Kernels;
use am_calls::naming::Racing;
use am_group::plan::RacePlan;
use am_race_laws::answer::CallAnswer;
use std::alloc::Global;
use std::sync::Wait;
use std::test::*;
use std::thread::Threads;

/// Receives, and sends what it received; whether it did both.
fn echo_once<R: Wait, N: Racing, G: TestHook>(
    rt: &R,
    kernels: &Kernels<N, G>,
    caller: &mut Caller<N>,
) -> bool
    ensures { caller.new.number ≡ caller.old.number }
{
    let node = Name::of_byte(0);
    if !caller.may_call() {
        return false;
    }
    let answer = kernels.receive(rt, caller, node);
    let CallAnswer::Took {
        entry: Entry::Data { body, .. },
        ..
    } = answer
    else {
        return false;
    };
    caller.may_call()
        && matches!(
            kernels.send(rt, caller, node, body),
            CallAnswer::Sent { .. }
        )
}

/// Sends a body, receives the founders' View, and twice receives and sends what it received.
struct Echo;

impl Job for Echo {
    ghost did = { λ _ _. Unit {0} };

    fn run<R: Wait, N: Racing, G: TestHook>(
        &self,
        rt: &R,
        kernels: &Kernels<N, G>,
        caller: &mut Caller<N>,
    ) {
        let node = Name::of_byte(0);
        if let Some(body) = Body::of(b"a")
            && caller.may_call()
        {
            let _sent = kernels.send(rt, caller, node, body);
        }
        if caller.may_call() {
            let _view = kernels.receive(rt, caller, node);
        }
        let _twice = echo_once(rt, kernels, caller) && echo_once(rt, kernels, caller);
    }
}

/// Each of a plan's callers does this at place 0; how many records they leave, none where they are too many.
pub fn echo_twice<R: Threads + Wait + Sync>(
    rt: &R,
    alloc: Global,
    plan: &RacePlan,
) -> Result<usize, NoMemory> {
    if plan.threads.as_slice().len() > 16 {
        return Ok(0);
    }
    Ok(let_do(rt, alloc, plan, &NoHook, &Echo)?.records().len())
}

// A send leaves its act and its check, and a receive its Take.
#[test]
fn one_that_founds_alone_echoes(rt: HostRuntime) -> Result<(), Fail> {
    let plan = plan_of(rt.alloc(), 1, &[(0, 0)], 200)?;
    let records = echo_twice(&rt, rt.alloc(), &plan)?;
    assert!(rt; records == 9);
    Ok(())
}

// Two callers at one place share its node: what one of them takes the other doesn't, and one that waits in vain makes its 200 turns. One
// alone leaves 9 records, so two leave more.
#[test]
fn two_that_share_a_place_echo(rt: HostRuntime) -> Result<(), Fail> {
    let plan = plan_of(rt.alloc(), 1, &[(0, 0), (0, 0)], 200)?;
    let records = echo_twice(&rt, rt.alloc(), &plan)?;
    assert!(rt; 9 < records);
    Ok(())
}
