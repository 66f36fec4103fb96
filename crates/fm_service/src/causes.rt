//! Why a step of a world would be refused now, without taking it.

ghost use Rattle.std.specs.Prelude.{◌≡◌, Some};
ghost use Rattle.fm_coord.specs.Causes.{cause, room_fault};
ghost use Rattle.fm_coord.specs.States.{bounds};
ghost use Rattle.fm_coord.specs.declared.entry.Call.TheVariants as call;
ghost use Rattle.fm_world.specs.declared.step.Act.TheVariants as act;
ghost use Rattle.fm_world.specs.Worlds.{WorldOfSets, cause_of};
ghost use Rattle.fm_world.specs.Represents.{WorldRepresents};
ghost use Rattle.fm_service.specs.WorldSteps.{step_at};

use fm_coord::coordinator::Coordinator;
use fm_coord::entry::Range;
use fm_edit::keepers::Keeper;
use fm_records::ops::Op;
use fm_records::refusal::Refusal;
use fm_world::world::World;

/// Why the coordinator would refuse the operation: NoCoordinator, BadOp, HistoryFull. None if it would take it in, or has no memory for
/// that. A look-up, as all here.
pub(crate) fn tell_cause(world: &World<Keeper>, at: u8, op: Op) -> Option<Refusal>
    ensures { (w : WorldOfSets) → WorldRepresents world.now w → result ≡ cause_of w (step_at at (act.Tell op)) }
{
    let Some(coordinator) = world.numbered(at) else {
        return Some(Refusal::NoCoordinator);
    };
    told_cause(coordinator, op)
}

// The same, at the coordinator.
fn told_cause(coordinator: &Coordinator<Keeper>, op: Op) -> Option<Refusal>
    ensures { result ≡ cause (bounds coordinator.now.state) (call.Tell op) }
{
    match op.check() {
        Ok(()) => room_cause(coordinator),
        Err(refusal) => Some(refusal),
    }
}

/// Why the coordinator would cut no packet of the range: NoCoordinator, BadInterval, Trimmed, HistoryFull.
pub(crate) fn cut_cause(world: &World<Keeper>, at: u8, range: Range) -> Option<Refusal>
    ensures { (w : WorldOfSets) → WorldRepresents world.now w → result ≡ cause_of w (step_at at (act.Cut range)) }
{
    let Some(coordinator) = world.numbered(at) else {
        return Some(Refusal::NoCoordinator);
    };
    ranged_cause(coordinator, range)
}

// The same, at the coordinator.
fn ranged_cause(coordinator: &Coordinator<Keeper>, range: Range) -> Option<Refusal>
    ensures { result ≡ cause (bounds coordinator.now.state) (call.Cut range) }
{
    match coordinator.check_cut(range) {
        Ok(()) => None,
        Err(refusal) => Some(refusal),
    }
}

/// Why the coordinator would not merge the packet with the number: NoCoordinator, NoPacket, HistoryFull.
pub(crate) fn delivery_cause(world: &World<Keeper>, at: u8, number: usize) -> Option<Refusal>
    ensures { (w : WorldOfSets) → WorldRepresents world.now w
        → result ≡ cause_of w (step_at at (act.Deliver number)) }
{
    let Some(coordinator) = world.numbered(at) else {
        return Some(Refusal::NoCoordinator);
    };
    match world.packet(number) {
        None => Some(Refusal::NoPacket),
        Some(_) => room_cause(coordinator),
    }
}

/// Why the coordinator would not drop the deltas below the number: NoCoordinator, BadInterval, HistoryFull.
pub(crate) fn trim_cause(world: &World<Keeper>, at: u8, floor: u64) -> Option<Refusal>
    ensures { (w : WorldOfSets) → WorldRepresents world.now w → result ≡ cause_of w (step_at at (act.Trim floor)) }
{
    let Some(coordinator) = world.numbered(at) else {
        return Some(Refusal::NoCoordinator);
    };
    trimmed_cause(coordinator, floor)
}

// The same, at the coordinator.
fn trimmed_cause(coordinator: &Coordinator<Keeper>, floor: u64) -> Option<Refusal>
    ensures { result ≡ cause (bounds coordinator.now.state) (call.Trim floor) }
{
    if floor < coordinator.floor() || floor > coordinator.end() {
        return Some(Refusal::BadInterval);
    }
    room_cause(coordinator)
}

/// Why the coordinator would have no room for an entry, such as that of a view, a commit or a merge: NoCoordinator, HistoryFull.
pub(crate) fn entry_cause(world: &World<Keeper>, at: u8) -> Option<Refusal>
    ensures { (w : WorldOfSets) → WorldRepresents world.now w → result ≡ cause_of w (step_at at act.View) }
{
    let Some(coordinator) = world.numbered(at) else {
        return Some(Refusal::NoCoordinator);
    };
    room_cause(coordinator)
}

// Why there is no room for an entry.
fn room_cause(coordinator: &Coordinator<Keeper>) -> Option<Refusal>
    ensures { result ≡ room_fault (bounds coordinator.now.state) }
{
    match coordinator.check_room() {
        Ok(()) => None,
        Err(refusal) => Some(refusal),
    }
}
