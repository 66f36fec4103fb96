//! One list of steps from the histories of coordinators, in an order that respects Lamport's happened-before (1978).
//!
//! Coordinators that ran in threads or in several processes have histories of their own, and what was proved is about
//! one list of steps. A listing joins them: the entries of each coordinator in its order, each packet cut before it is
//! merged. If there is none, such as if none of them cut a packet that was merged, it says whose entries are left.

ghost use Rattle.std.specs.Prelude.{◌≡◌, [], map, IfOk, IfErr, ◌⊎◌};
ghost use Rattle.fm_coord.specs.Numbers.{AreDistinct};
ghost use Rattle.fm_world.specs.Worlds.{AreAccepted};
ghost use Rattle.fm_world.specs.Represents.{state_of, number_of};
ghost use Rattle.fm_world.specs.Listings.{IsWholeRun, Halts, new_world_of};

use crate::laws::law_known;
use crate::step::Step;
use crate::sweeping::swept;
use fm_coord::coordinator::Coordinator;
use fm_policy::keeper::NetKeeper;
use fm_records::ids::CoordId;
use fm_records::refusal::Refusal;
use std::alloc::Global;

/// Why histories were not gathered. Stuck: the coordinators with entries left, in the order given, and the steps
/// gathered so far. OutOfMemory: both lists are empty.
#[derive(Drop)]
pub struct GatherFault {
    pub refusal: Refusal,
    pub left: Vec<CoordId>,
    pub steps: Vec<Step>,
}

/// The histories of the coordinators as one list of steps: run on new coordinators with these numbers and limits, no
/// step has a cause of refusal, and the result is what these coordinators are. Each entry is there once, those of a
/// coordinator in its order, and a merge names the earliest equal packet. The coordinators are visited in the order
/// given, as long as an entry can be taken. The caller must ensure that no two of them have one number. O(n log n) in
/// the entries, for each coordinator at worst. Stuck, if each coordinator that has entries left goes on with a merge
/// of a packet that none of the steps cuts: then no list has more of any history. OutOfMemory.
pub fn gather<N: NetKeeper>(
    alloc: Global,
    coordinators: &[Coordinator<N>],
) -> Result<Vec<Step>, GatherFault>
    requires { AreDistinct (map number_of coordinators.now) }
    ensures whole { IfOk result (λ steps. IsWholeRun (map state_of coordinators.now) steps.items) }
    ensures accepted { IfOk result (λ steps. AreAccepted (new_world_of (map state_of coordinators.now)) steps.items) }
    ensures refusals { IfErr result (λ fault. (fault.refusal ≡ Refusal.OutOfMemory) ⊎ (fault.refusal ≡ Refusal.Stuck)) }
    ensures memory_left { IfErr result (λ fault. fault.refusal ≡ Refusal.OutOfMemory → fault.left.items ≡ []) }
    ensures memory_steps { IfErr result (λ fault. fault.refusal ≡ Refusal.OutOfMemory → fault.steps.items ≡ []) }
    ensures some_left { IfErr result (λ fault. fault.refusal ≡ Refusal.Stuck → fault.left.items ≡ [] → ⊥) }
    ensures stuck { IfErr result (λ fault. fault.refusal ≡ Refusal.Stuck
        → Halts (map state_of coordinators.now) fault.left.items fault.steps.items) }
{
    law_known(coordinators);
    let Ok((steps, left)) = swept(alloc, coordinators) else {
        return Err(GatherFault {
            refusal: Refusal::OutOfMemory,
            left: Vec::new(alloc),
            steps: Vec::new(alloc),
        });
    };
    if left.is_empty() {
        return Ok(steps);
    }
    Err(GatherFault {
        refusal: Refusal::Stuck,
        left,
        steps,
    })
}
