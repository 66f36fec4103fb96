//! The rules by which an entry of a plan is judged, in their order.
//!
//! A place needs a live task that no machine holds, an open machine at its incarnation, a free slot and enough spare
//! bandwidth. It is *contested* if another proposal for the attempt would win against it. A preempt needs the task to
//! be held at the attempt that it names.

ghost use Rattle.std.specs.Prelude.{◌≡◌, ◌<◌, ◌≤◌, ◌+◌, ◌^◌, ◌==◌, ◌&&◌, ◌||◌, cond, not, true, false, option_map, IsTrue};
ghost use Rattle.fm_records.specs.Facts.{is_live, live_spec, is_open, is_present, attempt_of, spec_of, request_of, holds, has_room, passes};
ghost use Rattle.fm_records.specs.declared.ops.TheConstants.{MOST_BANDWIDTH};
ghost use Rattle.fm_net.specs.Network.{is_held};
ghost use Rattle.fm_round.specs.Admission.{told, last_attempt, has_proposal, has_incarnation, is_full, is_open_at, place_ops, place_answer, preempt_ops, preempt_answer};
ghost use Rattle.fm_round.specs.inner.AdmissionSteps.{winner_with, as_pair, spot_of, is_spot_of};
ghost use Rattle.fm_round.specs.inner.MachineHoldings.{is_counted, AreCountedHoldings};

use crate::machine_holdings::Holdings;
use crate::plan::{Answer, Place, Preempt};
use fm_know::facts::Winner;
use fm_know::knowledge::Knowledge;
use fm_lattice::join::Join;
use fm_records::ids::{CoordId, MachineId, TaskId};
use fm_records::records::Spot;
use std::cmp::Ordering;

/// The answer to a place of the coordinator. O(log n).
pub(crate) fn place_answer(
    known: &Knowledge,
    holdings: &Holdings,
    coordinator: CoordId,
    place: &Place,
) -> Answer
    requires holdings { AreCountedHoldings known.now holdings.now }
    requires counted { IsTrue (is_counted holdings.now place.now.machine) }
    ensures { result ≡ place_answer coordinator known.now place.now }
{
    if !known.is_live(place.task) || !known.is_present(spot_of(place)) {
        return Answer::Gone;
    }
    if is_held(known, place.task) {
        return Answer::Held;
    }
    if is_spent(known, place.task) {
        return Answer::AttemptsSpent;
    }
    if !would_hold(known, coordinator, place) {
        return Answer::Contested;
    }
    if is_full(known, holdings, place.machine) {
        return Answer::NoSlot;
    }
    if !has_room(
        known,
        holdings,
        place.machine,
        request_of(known, place.task),
    ) {
        return Answer::NoRoom;
    }
    Answer::Accepted
}

/// The answer to a preempt. O(log n).
pub(crate) fn preempt_answer(known: &Knowledge, preempt: &Preempt) -> Answer
    ensures { result ≡ preempt_answer known.now preempt.now }
{
    if !is_preemptable(known, preempt) {
        return Answer::Gone;
    }
    if preempt.attempt == u32::MAX {
        return Answer::AttemptsSpent;
    }
    if would_stay(known, preempt) {
        return Answer::Contested;
    }
    Answer::Accepted
}

// Whether some machine holds the task.
fn is_held(known: &Knowledge, task: TaskId) -> bool
    ensures { result ≡ is_held known.now task }
{
    known.holder(task).is_some()
}

/// Whether some coordinator proposed for the attempt.
pub(crate) fn has_proposal(known: &Knowledge, task: TaskId, attempt: u32) -> bool
    ensures { result ≡ has_proposal known.now task attempt }
{
    known.winner(task, attempt).is_some()
}

// Whether the task's present attempt has a proposal and is the last.
fn is_spent(known: &Knowledge, task: TaskId) -> bool
    ensures { result ≡ (has_proposal known.now task (attempt_of known.now task)
        && attempt_of known.now task == last_attempt) }
{
    let attempt = known.attempt(task).attempt;
    has_proposal(known, task, attempt) && attempt == u32::MAX
}

/// The request of the task; 0 if its spec is not known.
pub(crate) fn request_of(known: &Knowledge, task: TaskId) -> u32
    ensures request { result ≡ request_of (spec_of known.now task) }
    ensures within { result ≤ MOST_BANDWIDTH }
{
    match known.spec(task) {
        Some(spec) => spec.request,
        None => 0,
    }
}

// Whether the machine holds as many tasks as it has slots, or more.
fn is_full(known: &Knowledge, holdings: &Holdings, machine: MachineId) -> bool
    requires holdings { AreCountedHoldings known.now holdings.now }
    requires counted { IsTrue (is_counted holdings.now machine) }
    ensures { result ≡ is_full known.now machine }
{
    match known.open_state(machine) {
        Some(state) => u64::from(state.slots) <= holdings.of_machine(machine).tasks,
        None => false,
    }
}

// Whether the machine has a spare, and it is the request or more.
fn has_room(known: &Knowledge, holdings: &Holdings, machine: MachineId, request: u32) -> bool
    requires holdings { AreCountedHoldings known.now holdings.now }
    requires counted { IsTrue (is_counted holdings.now machine) }
    ensures { result ≡ has_room known.now machine request }
{
    let Some(state) = known.open_state(machine) else {
        return false;
    };
    let used = u128::from(known.used(machine));
    let load = used.max(holdings.of_machine(machine).requests);
    let nic = u128::from(state.nic);
    load <= nic && u128::from(request) <= nic - load
}

// The attempt that a place is for: the present one if that has no proposal, else the next, if there is one.
fn attempt_for(known: &Knowledge, task: TaskId) -> u32
    requires { (has_proposal known.now task (attempt_of known.now task) && attempt_of known.now task == last_attempt)
        ≡ false }
    ensures { result ≡ cond (has_proposal known.now task (attempt_of known.now task)) (attempt_of known.now task + 1)
        (attempt_of known.now task) }
{
    let attempt = known.attempt(task).attempt;
    if has_proposal(known, task, attempt) {
        attempt + 1
    } else {
        attempt
    }
}

// Whether the place's operations would leave the task held by the machine: whether its spot would win.
fn would_hold(known: &Knowledge, coordinator: CoordId, place: &Place) -> bool
    requires live { is_live known.now place.now.task ≡ true }
    requires there { is_open_at known.now place.now.machine place.now.incarnation ≡ true }
    requires unspent { (has_proposal known.now place.now.task (attempt_of known.now place.now.task)
        && attempt_of known.now place.now.task == last_attempt) ≡ false }
    ensures { result ≡ holds (told known.now (place_ops coordinator known.now place.now)) place.now.machine
        place.now.task }
{
    known.known();
    let winner = known.winner(place.task, attempt_for(known, place.task));
    let spot = spot_with(winner, coordinator, spot_of(place));
    is_spot_of(place, &spot)
}

// Where the place would go.
fn spot_of(place: &Place) -> Spot
    ensures { result ≡ spot_of place.now }
{
    Spot {
        machine: place.machine,
        incarnation: place.incarnation,
    }
}

// Whether the spot is the place's.
fn is_spot_of(place: &Place, spot: &Spot) -> bool
    ensures { result ≡ is_spot_of place.now spot.now }
{
    spot.machine == place.machine && spot.incarnation == place.incarnation
}

// The winner's spot once the coordinator has proposed its own too: the least coordinator wins, with its least spot.
fn spot_with(winner: Option<Winner>, coordinator: CoordId, proposed: Spot) -> Spot
    ensures { result ≡ (winner_with (option_map as_pair winner) coordinator proposed).1 }
{
    let Some(winner) = winner else {
        return proposed;
    };
    let spot = winner.spot();
    match coordinator.cmp(&winner.coordinator) {
        Ordering::Less => proposed,
        Ordering::Equal => spot.min(proposed),
        Ordering::Greater => spot,
    }
}

// Whether the task is live and held, in the attempt that the preempt names.
fn is_preemptable(known: &Knowledge, preempt: &Preempt) -> bool
    ensures { not result
        ≡ (not (is_live known.now preempt.now.task) || not (is_held known.now preempt.now.task) || not
        (attempt_of known.now preempt.now.task == preempt.now.attempt)) }
{
    known.is_live(preempt.task)
        && is_held(known, preempt.task)
        && known.attempt(preempt.task).attempt == preempt.attempt
}

// Whether the winner of the next attempt would hold the task.
fn would_stay(known: &Knowledge, preempt: &Preempt) -> bool
    requires live { is_live known.now preempt.now.task ≡ true }
    requires present { attempt_of known.now preempt.now.task ≡ preempt.now.attempt }
    requires later { preempt.now.attempt + 1 < 2 ^ 32 }
    ensures { result ≡ is_held (told known.now (preempt_ops known.now preempt.now)) preempt.now.task }
{
    known.known();
    match known.winner(preempt.task, preempt.attempt + 1) {
        Some(winner) => known.is_present(winner.spot()),
        None => false,
    }
}
