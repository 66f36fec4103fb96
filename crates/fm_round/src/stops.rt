//! What a coordinator has to stop: what it may run by proposals by which no task is held at present.
//!
//! A coordinator may run a task by its proposal before it hears that another one's won, that the attempt is over, or
//! that the machine has a new incarnation. The stops are computed from what is known alone, by one walk over the
//! proposals.

ghost use Rattle.std.specs.Prelude.{◌≡◌, IfOk};
ghost use Rattle.fm_round.specs.Admission.{has_incarnation};
ghost use Rattle.fm_round.specs.Stopping.{is_present_holding, stop_of, stops_of};

use crate::plan::Stop;
use fm_know::knowledge::Knowledge;
use fm_lattice::constructors::Min;
use fm_lattice::join::OutOfMemory;
use fm_lattice::map::JoinMap;
use fm_records::ids::{CoordId, MachineId, TaskId};
use fm_records::records::Spot;
use std::alloc::Global;

/// The entries that the coordinator has to stop, by task and attempt: those for an attempt that is not the task's
/// present one, and those whose machine, at exactly that incarnation, does not hold the task. Whose entry won does
/// not matter. O(p log n) for p attempts with proposals.
pub fn stops(
    alloc: Global,
    knowledge: &Knowledge,
    coordinator: CoordId,
) -> Result<Vec<Stop>, OutOfMemory>
    ensures { IfOk result (λ stops. stops.items ≡ stops_of knowledge.now coordinator) }
{
    let mut stops = Vec::new(alloc);
    for (at, entries) in knowledge.proposals().iter() {
        if let Some(stop) = stop_of(knowledge, coordinator, *at, entries) {
            stops.push(stop)?;
        }
    }
    Ok(stops)
}

// The coordinator's entry for the attempt, if it has one, unless that is a present holding.
fn stop_of(
    knowledge: &Knowledge,
    coordinator: CoordId,
    at: (TaskId, u32),
    entries: &JoinMap<CoordId, Min<Spot>>,
) -> Option<Stop>
    ensures { result ≡ stop_of knowledge.now coordinator (at, entries.now) }
{
    let spot = entries.get(&coordinator)?.0;
    if is_present_holding(knowledge, at, spot) {
        return None;
    }
    Some(Stop {
        task: at.0,
        attempt: at.1,
        machine: spot.machine,
        incarnation: spot.incarnation,
    })
}

// Whether the attempt is the task's present one, and exactly the machine at that incarnation holds the task.
fn is_present_holding(knowledge: &Knowledge, at: (TaskId, u32), spot: Spot) -> bool
    ensures { result ≡ is_present_holding knowledge.now at spot }
{
    knowledge.attempt(at.0).attempt == at.1
        && knowledge.holder(at.0) == Some(spot.machine)
        && has_incarnation(knowledge, spot.machine, spot.incarnation)
}

// Whether the machine's incarnation is the one that is named.
fn has_incarnation(knowledge: &Knowledge, machine: MachineId, incarnation: u64) -> bool
    ensures { result ≡ has_incarnation knowledge.now machine incarnation }
{
    match knowledge.machines().get(&machine) {
        Some(record) => record.0 == incarnation,
        None => false,
    }
}
