ghost use Rattle.std.specs.Prelude.{◌≡◌, ◌<◌, ◌≤◌, [], ◌∷◌, IfOk, vec_len, map, length, All};
ghost use Rattle.am_shared_journal_defs.specs.declared.terms.SharerKey.TheVariants.{Place};
ghost use Rattle.am_shared_journal_defs.specs.Keys.{place_keys, caller_keys};
ghost use Rattle.am_shared_journal_defs.specs.Passes.{fresh};
ghost use Rattle.am_race_laws.specs.Lawful.{terms_of};
ghost use Rattle.am_race_laws.specs.Ran.{fresh_callers, HasPlaces, IsIn};

use crate::caller::Caller;
use crate::naming::{RaceLaw, Racing};
use crate::node_box::NodeBox;
use am_base::NoMemory;
use am_base::founding::Founding;
use am_base::name::Name;
use am_group::plan::RacePlan;
use am_node::node::Node;
use am_shared_journal::wire::{Pass, Share, SharedJournal};
use std::alloc::Global;
use std::sync::{Mutex, Wait};

/// The box of a place, with its pass: of a founder, or of a name that no one has seen.
fn box_of<N: Racing>(
    alloc: Global,
    founding: &Founding,
    place: usize,
    pass: Pass,
) -> Result<NodeBox<N>, NoMemory>
    requires founding { founding.now ≡ N.plan.founding }
    requires its { (place < 16) × (pass ≡ fresh N.wire (terms_of N.plan) (Place place)) }
{
    let name = Name::of_byte(place as u8);
    let node = Node::begin(alloc, name, founding)?;
    Ok(NodeBox::new(name, node, pass))
}

/// The boxes of the sixteen places, each with its pass.
pub fn boxes_of<N: Racing>(
    alloc: Global,
    founding: &Founding,
    passes: Vec<Pass>,
) -> Result<Vec<Mutex<NodeBox<N>>>, NoMemory>
    requires founding { founding.now ≡ N.plan.founding }
    requires passes { passes.items ≡ map (fresh N.wire (terms_of N.plan)) place_keys }
    ensures { IfOk result (λ boxes. vec_len boxes ≡ 16) }
{
    let mut boxes = Vec::with_capacity(alloc, 16)?;
    for pass in passes {
        let node_box = box_of(alloc, founding, boxes.len(), pass)?;
        boxes.push(Mutex::new(node_box))?;
    }
    Ok(boxes)
}

/// A caller for each share.
pub fn callers_of<N: Racing>(
    alloc: Global,
    plan: &RacePlan,
    shares: Vec<Share>,
) -> Result<Vec<Caller<N>>, NoMemory>
    requires plan { plan.now ≡ N.plan }
    requires few { length N.plan.threads ≤ 16 }
    requires shares { shares.items ≡ map (fresh N.wire (terms_of N.plan))
        (caller_keys (length N.plan.threads)) }
    ensures { IfOk result (λ callers. callers.items ≡ fresh_callers (length N.plan.threads)) }
{
    let mut callers = Vec::with_capacity(alloc, shares.len())?;
    for share in shares {
        let number = callers.len() as u32;
        callers.push(Caller::new(plan, number, share))?;
    }
    Ok(callers)
}

/// The pass of a box, which is that of this place. It is looked at for the same reason as `Kernels::box_at` looks, and never again.
fn pass_of<R: Wait, N: Racing>(rt: &R, node_box: NodeBox<N>, place: u8) -> Pass
    ensures own { result.wire ≡ N.wire }
    ensures keys { result.keys ≡ Place place ∷ [] }
{
    for _ in rt.forever() {
        if node_box.name().get() == place {
            return node_box.into_pass();
        }
    }
    unreachable!()
}

/// The passes of all boxes, joined.
pub fn all_places<R: Wait, N: Racing>(
    rt: &R,
    wire: &SharedJournal<RaceLaw>,
    boxes: Vec<Mutex<NodeBox<N>>>,
) -> Pass
    requires own { wire.now.id ≡ N.wire }
    requires sixteen { vec_len boxes ≡ 16 }
    ensures own { result.wire ≡ N.wire }
    ensures places { HasPlaces 16 result }
{
    let mut boxes = boxes.into_iter();
    let mut pass = match boxes.next() {
        Some(first) => pass_of(rt, first.into_inner(), 0),
        None => unreachable!(),
    };
    let mut place = 1;
    for other in boxes {
        wire.join(&mut pass, pass_of(rt, other.into_inner(), place));
        place += 1;
    }
    pass
}

/// The pass with the keys of the callers, too.
pub fn with_callers<N: Racing>(
    wire: &SharedJournal<RaceLaw>,
    mut pass: Pass,
    callers: Vec<Caller<N>>,
) -> Pass
    requires own { (wire.now.id ≡ N.wire) × (pass.wire ≡ N.wire) }
    requires places { HasPlaces 16 pass }
    ensures own { result.wire ≡ N.wire }
    ensures places { HasPlaces 16 result }
    ensures callers { All (IsIn N.plan result) callers.items }
{
    for caller in callers {
        wire.join(&mut pass, caller.into_share());
    }
    pass
}
