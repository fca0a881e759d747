use crate::calls::plan_of;
use am_base::body::Body;
use am_base::name::Name;
use am_calls::caller::Caller;
use am_calls::gate::{NoHook, TestHook};
use am_calls::job::{Job, let_do};
use am_calls::kernels::Kernels;
use am_calls::naming::Racing;
use am_race_laws::answer::CallAnswer;
use std::sync::atomic::{AtomicU64, Ordering};
use std::sync::{Mutex, Wait};
use std::test::*;

/// Asks what place 0 knows, and then makes each kind of call there: a send, three receives, a join, a reset, a leave and a stop. It
/// notes how many entries the node had at first, and what each call answered, where there is memory for it.
#[derive(Drop)]
struct EachCall {
    top: AtomicU64,
    answers: Mutex<Vec<CallAnswer>>,
}

impl EachCall {
    /// Notes an answer.
    fn note<R: Wait>(&self, rt: &R, answer: CallAnswer) {
        let _noted = self.answers.lock(rt).push(answer);
    }
}

impl Job for EachCall {
    ghost did = { λ _ _. Unit {0} };

    fn run<R: Wait, N: Racing, G: TestHook>(
        &self,
        rt: &R,
        kernels: &Kernels<N, G>,
        caller: &mut Caller<N>,
    ) {
        let node = Name::of_byte(0);
        if let Ok(info) = kernels.info(rt, caller, node) {
            self.top.store(u64::from(info.top), Ordering::SeqCst);
        }
        if let Some(body) = Body::of(b"a") {
            self.note(rt, kernels.send(rt, caller, node, body));
        }
        self.note(rt, kernels.receive(rt, caller, node));
        self.note(rt, kernels.receive(rt, caller, node));
        self.note(rt, kernels.receive(rt, caller, node));
        self.note(rt, kernels.join(rt, caller, node));
        self.note(rt, kernels.reset(rt, caller, node, 1, 0));
        self.note(rt, kernels.leave(rt, caller, node));
        self.note(rt, kernels.stop(rt, caller, node));
    }
}

/// Whether these are the answers to the calls of one that founds alone and has three turns a call.
fn are_right(answers: &[CallAnswer]) -> bool {
    let [sent, view, data, late, joined, decided, left, stopped] = answers else {
        return false;
    };
    let takes = matches!(view, CallAnswer::Took { number: 1, .. })
        && matches!(data, CallAnswer::Took { number: 2, .. })
        && matches!(late, CallAnswer::Late { turns: 3 });
    let is_alone = match decided {
        CallAnswer::Decided { number: 3, members } => members.mask() == 1,
        _ => false,
    };
    matches!(sent, CallAnswer::Sent { req: 1, number: 2 })
        && takes
        && matches!(joined, CallAnswer::Joined { number: 1 })
        && is_alone
        && matches!(left, CallAnswer::Left)
        && matches!(stopped, CallAnswer::StopDone)
}

#[test]
fn each_call_is_answered(rt: HostRuntime) -> Result<(), Fail> {
    let plan = plan_of(rt.alloc(), 1, &[(0, 0)], 3)?;
    let calls = EachCall {
        top: AtomicU64::new(0),
        answers: Mutex::new(Vec::new(rt.alloc())),
    };
    assert!(rt; plan.threads.as_slice().len() == 1);
    let _journal = let_do(&rt, rt.alloc(), &plan, &NoHook, &calls)?;
    assert!(rt; calls.top.load(Ordering::SeqCst) == 1);
    assert!(rt; are_right(calls.answers.lock(&rt).as_slice()));
    Ok(())
}
