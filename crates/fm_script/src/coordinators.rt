//! The coordinators with which a run of the program begins, of which every second one rebuilds its network.
//!
//! So a run with two or more coordinators has both ways to maintain a network, and those that know the same show the
//! same network.

ghost use Rattle.std.specs.Prelude.{◌≡◌, [], IsTrue, IfOk};
ghost use Rattle.fm_records.specs.Know.{table_of};
ghost use Rattle.fm_edit.specs.inner.Keepers.{is_fresh_keeper, KeeperIsFor};
ghost use Rattle.fm_coord.specs.States.{new_state};
ghost use Rattle.fm_script.specs.CoordinatorLists.{is_listed};

use fm_coord::coordinator::Coordinator;
use fm_edit::deferred::Deferred;
use fm_edit::keepers::Keeper;
use fm_lattice::join::OutOfMemory;
use fm_policy::rebuilder::Rebuilder;
use fm_records::ids::CoordId;
use std::alloc::Global;

/// How many entries a coordinator's history may have.
pub const HISTORY_LIMIT: usize = 1_000_000;

/// A coordinator to which nothing happened, which is listed at the place, counted from 0: the first, the third and so
/// on edit their networks when they are read, once little changes between reads; the others rebuild them. Refused only
/// if memory runs out.
pub fn coordinator_at(
    alloc: Global,
    number: CoordId,
    place: usize,
) -> Result<Coordinator<Keeper>, OutOfMemory>
    ensures { IfOk result (λ coordinator. coordinator.state ≡ new_state number HISTORY_LIMIT) }
{
    let keeper = keeper_at(alloc, place)?;
    Ok(Coordinator::new(alloc, number, HISTORY_LIMIT, keeper))
}

// The keeper of the coordinator that is listed at the place.
fn keeper_at(alloc: Global, place: usize) -> Result<Keeper, OutOfMemory>
    ensures { IfOk result (λ keeper. IsTrue (is_fresh_keeper keeper) → KeeperIsFor keeper (table_of [])) }
{
    if place % 2 == 0 {
        Ok(Keeper::Defers(Deferred::new(alloc)?))
    } else {
        Ok(Keeper::Builds(Rebuilder::new(alloc)?))
    }
}

/// Whether the number is one of those listed. O(n).
pub fn is_listed(listed: &[CoordId], number: u8) -> bool
    ensures { result ≡ is_listed listed.now number }
{
    listed
        .iter()
        .any(|coordinator| coordinator.value() == number)
}
