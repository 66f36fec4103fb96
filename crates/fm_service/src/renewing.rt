//! Renewing coordinators: new ones with the same knowledge, since histories and deltas grow as long as a stream lasts.
//!
//! Each new coordinator has received all that the old one knew as one packet of its own. So it knows the same and
//! answers the same of that, and the operations behind it are still those that the old one received.

ghost use Rattle.std.specs.Prelude.{◌≡◌, IfOk, IsOkUnless};
ghost use Rattle.fm_coord.specs.Events.{Replica};
ghost use Rattle.fm_coord.specs.Replays.{seen_packet};
ghost use Rattle.fm_coord.specs.States.{Represents};
ghost use Rattle.fm_world.specs.Represents.{WorldRepresents};
ghost use Rattle.fm_world.specs.Worlds.{WorldOfSets};
ghost use Rattle.fm_service.specs.Renewing.{renewed_world, whole_of};
ghost use Rattle.fm_service.specs.inner.ReopenedWorld.{reopened_world};

use fm_coord::coordinator::Coordinator;
use fm_delta::packet::Packet;
use fm_edit::keepers::Keeper;
use fm_lattice::join::OutOfMemory;
use fm_records::refusal::Refusal;
use fm_script::initial_world::open;
use fm_world::world::World;
use std::alloc::Global;

/// A world of new coordinators with the same numbers and knowledge: each has received that as one packet, its own, and
/// nothing else has happened to it. Histories, deltas and packets are dropped, and numbers of deltas and packets start
/// from the beginning. Refused only if memory runs out. It lists the keys of all that each knows, O(n log n), and
/// copies the records that are in no shared block, once. The world that is passed stays as it is.
pub fn renewed(alloc: Global, world: &World<Keeper>) -> Result<World<Keeper>, Refusal>
    ensures ok { (w : WorldOfSets) → WorldRepresents world.now w
        → IfOk result (λ anew. WorldRepresents anew (renewed_world w)) }
    ensures err { IsOkUnless result Refusal.OutOfMemory }
{
    world.known();
    let mut anew = reopened(alloc, world)?;
    for coordinator in world.coordinators() {
        let number = coordinator.number();
        let packet = whole_of(coordinator)?;
        anew.take(number.value(), 0, packet)?;
    }
    Ok(anew)
}

/// All that the coordinator knows, as a packet of its own.
pub(crate) fn whole_of(coordinator: &Coordinator<Keeper>) -> Result<Packet, OutOfMemory>
    ensures { (r : Replica) → Represents coordinator.now.state r
        → IfOk result (λ packet. packet ≡ seen_packet (whole_of r)) }
{
    Ok(Packet {
        sender: coordinator.number(),
        number: 0,
        value: coordinator.knowledge().copy()?,
    })
}

// A world of coordinators of the same numbers, to which nothing has happened.
fn reopened(alloc: Global, world: &World<Keeper>) -> Result<World<Keeper>, OutOfMemory>
    ensures { (w : WorldOfSets) → WorldRepresents world.now w
        → IfOk result (λ anew. WorldRepresents anew (reopened_world w)) }
{
    world.known();
    let mut numbers = Vec::new(alloc);
    for coordinator in world.coordinators() {
        numbers.push(coordinator.number())?;
    }
    open(alloc, &numbers)
}
