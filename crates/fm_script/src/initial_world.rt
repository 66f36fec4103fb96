//! The world with which a run of the program begins.

ghost use Rattle.std.specs.Prelude.{IfOk};
ghost use Rattle.fm_coord.specs.Numbers.{AreDistinct};
ghost use Rattle.fm_world.specs.Represents.{WorldRepresents};
ghost use Rattle.fm_script.specs.Openings.{new_world};

use crate::coordinators::coordinator_at;
use fm_edit::keepers::Keeper;
use fm_lattice::join::OutOfMemory;
use fm_records::ids::CoordId;
use fm_world::world::World;
use std::alloc::Global;

/// The world of the coordinators that are listed, to which nothing happened. No two of them may have one number.
/// Refused only if memory runs out.
pub fn open(alloc: Global, listed: &[CoordId]) -> Result<World<Keeper>, OutOfMemory>
    requires { AreDistinct listed.now }
    ensures { IfOk result (λ world. WorldRepresents world (new_world listed.now)) }
{
    let mut coordinators = Vec::with_capacity(alloc, listed.len())?;
    for number in listed {
        let coordinator = coordinator_at(alloc, *number, coordinators.len())?;
        coordinators.push(coordinator)?;
    }
    Ok(World::new(coordinators))
}
