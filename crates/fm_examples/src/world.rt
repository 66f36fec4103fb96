//! A world alone: recorded steps are run again, and the resulting network is dumped.

ghost use Rattle.std.specs.Prelude.{◌≡◌, OnOk};
ghost use Rattle.fm_world.specs.Worlds.{WorldOfSets, with_number, run_of};
ghost use Rattle.fm_world.specs.Agreement.{IsDumpOf};
ghost use Rattle.fm_world.specs.Represents.{WorldRepresents};

use fm_dimacs::out::Out;
use fm_policy::keeper::NetKeeper;
use fm_records::ids::CoordId;
use fm_records::refusal::Refusal;
use fm_world::step::Step;
use fm_world::world::World;

/// Runs the steps, and writes the network of the coordinator: that of the operations which its replica received, in a
/// world of sets of operations. Stops at the first refused step, with its cause, and then writes nothing.
pub fn run_and_dump<N: NetKeeper, W: Out>(
    world: &mut World<N>,
    steps: &[Step],
    number: CoordId,
    out: &mut W,
) -> Result<(), Refusal>
    ensures { (w : WorldOfSets) → WorldRepresents world.old w
        → OnOk result (IsDumpOf (with_number (run_of w steps.now).replicas number) (W.written out.old)
        (W.written out.new)) }
{
    if let Err(stop) = world.run(steps) {
        return Err(stop.refusal);
    }
    world.dump(number, out)
}
