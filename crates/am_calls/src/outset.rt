ghost use Rattle.std.specs.Prelude.{◌≡◌, ◌≤◌, IfOk, map, length};
ghost use Rattle.am_shared_journal_defs.specs.Keys.{place_keys, caller_keys};
ghost use Rattle.am_shared_journal_defs.specs.Passes.{fresh};
ghost use Rattle.am_race_laws.specs.Lawful.{terms_of};

use crate::naming::RaceLaw;
use am_base::NoMemory;
use am_group::plan::RacePlan;
use am_shared_journal::wire::{Pass, Share, SharedJournal};
use am_shared_journal_defs::terms::Terms;
use std::alloc::Global;

/// What a race of a plan begins with: a fresh wire, with a pass for each of the sixteen places and a share for each thread.
#[derive(Drop)]
pub struct Outset<'p> {
    pub(crate) plan: &'p RacePlan,
    pub(crate) wire: SharedJournal<RaceLaw>,
    pub(crate) passes: Vec<Pass>,
    pub(crate) shares: Vec<Share>,
    ghost few: { length plan.now.threads ≤ 16 },
    ghost planned: { wire.terms ≡ terms_of plan.now },
    ghost for_places: { passes.items ≡ map (fresh wire.id (terms_of plan.now)) place_keys },
    ghost for_callers: { shares.items ≡ map (fresh wire.id (terms_of plan.now)) (caller_keys (length plan.now.threads)) },
}

impl<'p> Outset<'p> {
    /// What a race of this plan begins with.
    pub fn of(alloc: Global, plan: &'p RacePlan) -> Result<Outset<'p>, NoMemory>
        requires { length plan.now.threads ≤ 16 }
        ensures { IfOk result (λ outset. outset.plan.now ≡ plan.now) }
    {
        let (wire, passes, shares) = SharedJournal::<RaceLaw>::start(alloc, &terms_of(plan))?;
        Ok(Outset {
            plan,
            wire,
            passes,
            shares,
        })
    }
}

/// What the wire of a plan is told.
fn terms_of(plan: &RacePlan) -> Terms
    requires { length plan.now.threads ≤ 16 }
    ensures { result ≡ terms_of plan.now }
{
    Terms {
        founding: plan.founding,
        callers: plan.threads.as_slice().len() as u32,
        seed: plan.seed_number,
        loss: plan.loss,
        repeat: plan.repeat,
        turns: plan.turns,
    }
}
