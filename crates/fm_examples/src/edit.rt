//! Editing alone: a coordinator whose network is edited when it is read.

ghost use Rattle.std.specs.Prelude.{◌≡◌, IfOk};
ghost use Rattle.fm_coord.specs.States.{new_state};

use fm_coord::coordinator::Coordinator;
use fm_edit::deferred::Deferred;
use fm_lattice::join::OutOfMemory;
use fm_records::ids::CoordId;
use std::alloc::Global;

/// An unused coordinator whose network is edited when it is read, if little changed since it was read last, and else built.
pub fn edited_when_read(
    alloc: Global,
    number: CoordId,
    limit: usize,
) -> Result<Coordinator<Deferred>, OutOfMemory>
    ensures { IfOk result (λ coordinator. coordinator.state ≡ new_state number limit) }
{
    let keeper = Deferred::new(alloc)?;
    Ok(Coordinator::new(alloc, number, limit, keeper))
}
