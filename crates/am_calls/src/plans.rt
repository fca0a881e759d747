ghost use Rattle.std.specs.Prelude.{◌≡◌, ◌↔◌, ◌≤◌, true, length, min, sum_by, map};
ghost use Rattle.std.specs.List.{list_all};
ghost use Rattle.am_base.specs.Most.{most_events_of_run};
ghost use Rattle.am_race_laws.specs.Plans.{is_call, MayRace};

use am_base::limits::MOST_EVENTS;
use am_group::event::Act;
use am_group::plan::{RacePlan, ThreadPlan};

/// Whether an act is a call.
fn is_call(act: &Act) -> bool
    ensures { result ≡ is_call act.now }
{
    matches!(
        act,
        Act::Send(_) | Act::Take | Act::Join | Act::Leave | Act::Reset { .. } | Act::Stop
    )
}

/// Whether a thread's acts are calls.
fn has_calls(thread: &ThreadPlan) -> bool
    ensures { result ≡ list_all is_call thread.now.calls }
{
    thread.calls.as_slice().iter().all(is_call)
}

/// How many calls threads make together, 100,000 at most.
fn calls_in(threads: &[ThreadPlan]) -> u64
    ensures { result ≡ min (sum_by (λ thread. length thread.calls) threads.now) most_events_of_run }
{
    let mut sum = 0u64;
    for thread in threads {
        let more = thread.calls.as_slice().len() as u64;
        sum = sum.saturating_add(more).min(MOST_EVENTS as u64);
    }
    sum
}

/// Whether all acts of threads are calls.
fn have_calls(threads: &[ThreadPlan]) -> bool
    ensures { result ≡ list_all (λ thread. list_all is_call thread.calls) threads.now }
{
    threads.iter().all(has_calls)
}

/// Whether a plan may be raced: by sixteen threads at most, which make calls alone, so few that all their records fit into
/// one journal.
pub fn may_race(plan: &RacePlan) -> bool
    ensures { (result ≡ true) ↔ MayRace plan.now }
{
    let threads = plan.threads.as_slice();
    if threads.len() > 16 {
        return false;
    }
    if !have_calls(threads) {
        return false;
    }
    calls_in(threads) * (u64::from(plan.turns) + 2) <= MOST_EVENTS as u64
}
