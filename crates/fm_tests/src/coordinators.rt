//! The coordinators and worlds that tests begin with, what these are asked, and what is read of them.

ghost use Rattle.std.specs.Prelude.{◌≡◌, [], IsTrue, IfOk};
ghost use Rattle.fm_records.specs.Know.{table_of};
ghost use Rattle.fm_edit.specs.inner.Keepers.{is_fresh_keeper, KeeperIsFor};
ghost use Rattle.fm_world.specs.Represents.{AreUnused};

use crate::samples::small_cluster;
use fm_coord::coordinator::Coordinator;
use fm_dimacs::out::Over;
use fm_edit::editor::Editor;
use fm_edit::keepers::Keeper;
use fm_policy::keeper::NetKeeper;
use fm_policy::rebuilder::Rebuilder;
use fm_records::ids::CoordId;
use fm_records::refusal::Refusal;
use fm_round::listed::Listed;
use fm_round::plan::{Place, Plan};
use fm_world::distinct::distinct;
use fm_world::gather::gather;
use fm_world::step::{Act, Step};
use fm_world::world::World;
use std::alloc::Global;
use std::test::Fail;

pub(crate) fn coordinator_id(number: u8) -> Result<CoordId, Refusal> {
    CoordId::new(number).ok_or(Refusal::NoCoordinator)
}

/// A coordinator that builds its network anew, with room for so many entries.
pub(crate) fn building(
    alloc: Global,
    number: u8,
    limit: usize,
) -> Result<Coordinator<Rebuilder>, Refusal>
    ensures { IfOk result (λ c. c.state.history ≡ []) }
{
    let number = coordinator_id(number)?;
    let keeper = Rebuilder::new(alloc)?;
    Ok(Coordinator::new(alloc, number, limit, keeper))
}

fn keeper(alloc: Global, edits: bool) -> Result<Keeper, Refusal>
    ensures { IfOk result (λ keeper. IsTrue (is_fresh_keeper keeper) → KeeperIsFor keeper (table_of [])) }
{
    if edits {
        Ok(Keeper::Edits(Editor::new(alloc)?))
    } else {
        Ok(Keeper::Builds(Rebuilder::new(alloc)?))
    }
}

/// A coordinator that edits its network, or builds it anew, with room for so many entries.
pub(crate) fn keeping(
    alloc: Global,
    number: u8,
    limit: usize,
    edits: bool,
) -> Result<Coordinator<Keeper>, Refusal>
    ensures { IfOk result (λ c. c.state.history ≡ []) }
{
    let number = coordinator_id(number)?;
    let keeper = keeper(alloc, edits)?;
    Ok(Coordinator::new(alloc, number, limit, keeper))
}

/// The world of the coordinators, if no two have one number.
pub(crate) fn world_of<N: NetKeeper>(coordinators: Vec<Coordinator<N>>) -> Result<World<N>, Fail>
    requires { AreUnused coordinators.items }
{
    if !distinct(coordinators.as_slice()) {
        return Err("two coordinators have one number".into());
    }
    Ok(World::new(coordinators))
}

// The functions below have no contract: the tests are of what is answered, and proofs of them stay short.

/// Coordinator 1 once it was told of the small cluster.
pub(crate) fn three_told(alloc: Global) -> Result<Coordinator<Rebuilder>, Refusal> {
    let mut coordinator = building(alloc, 1, 1_000)?;
    for op in small_cluster() {
        coordinator.tell(0, op)?;
    }
    Ok(coordinator)
}

/// A plan that places one task.
pub(crate) fn placing(alloc: Global, place: Place) -> Result<Plan, Refusal> {
    Ok(Plan {
        places: Listed::new([place].to_vec(alloc)?),
        preempts: Listed::new(Vec::new(alloc)),
    })
}

/// What the coordinator of this number is asked by seat 0.
pub(crate) fn step(at: u8, act: Act) -> Step {
    Step { at, by: 0, act }
}

/// The text of the coordinator's network.
pub(crate) fn dump_of<N: NetKeeper>(
    alloc: Global,
    coordinator: &mut Coordinator<N>,
) -> Result<Vec<u8>, Refusal> {
    let mut out = Over::new(Vec::new(alloc));
    coordinator.dump(&mut out)?;
    Ok(out.into_inner())
}

/// The text of the network of the world's coordinator of this number.
pub(crate) fn dumped<N: NetKeeper>(
    alloc: Global,
    world: &mut World<N>,
    number: u8,
) -> Result<Vec<u8>, Refusal> {
    let number = coordinator_id(number)?;
    let mut out = Over::new(Vec::new(alloc));
    world.dump(number, &mut out)?;
    Ok(out.into_inner())
}

/// The one list of steps from the histories of the coordinators, if they are gathered.
pub(crate) fn gathered<N: NetKeeper>(
    alloc: Global,
    coordinators: &[Coordinator<N>],
) -> Option<Vec<Step>> {
    if !distinct(coordinators) {
        return None;
    }
    gather(alloc, coordinators).ok()
}
