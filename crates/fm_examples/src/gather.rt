//! Histories alone: one list of steps that leads to what several coordinators are.

ghost use Rattle.std.specs.Prelude.{◌≡◌, ◌⊎◌, map, IfOk, IfErr};
ghost use Rattle.fm_coord.specs.Numbers.{AreDistinct};
ghost use Rattle.fm_world.specs.Represents.{state_of, number_of};
ghost use Rattle.fm_world.specs.Listings.{IsWholeRun};

use fm_coord::coordinator::Coordinator;
use fm_policy::keeper::NetKeeper;
use fm_records::refusal::Refusal;
use fm_world::gather::gather;
use fm_world::step::Step;
use std::alloc::Global;

/// The steps that the coordinators took, as one list: run on new coordinators with their numbers and limits, they lead to
/// what these coordinators are. The caller must ensure that no two of them have one number. Stuck, if some packet was
/// merged that none of them cut; OutOfMemory.
pub fn steps_of<N: NetKeeper>(
    alloc: Global,
    coordinators: &[Coordinator<N>],
) -> Result<Vec<Step>, Refusal>
    requires { AreDistinct (map number_of coordinators.now) }
    ensures whole { IfOk result (λ steps. IsWholeRun (map state_of coordinators.now) steps.items) }
    ensures err { IfErr result (λ refusal. (refusal ≡ Refusal.OutOfMemory) ⊎ (refusal ≡ Refusal.Stuck)) }
{
    match gather(alloc, coordinators) {
        Ok(steps) => Ok(steps),
        Err(fault) => Err(fault.refusal),
    }
}
