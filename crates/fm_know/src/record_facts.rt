//! Facts of single records, for whoever has one at hand.

ghost use Rattle.std.specs.Prelude.{◌≡◌, ◌==◌, ◌&&◌, true, option_map};
ghost use Rattle.fm_records.specs.Options.{or_else, passes};
ghost use Rattle.fm_records.specs.Facts.{is_done, request_of};
ghost use Rattle.fm_know.specs.RecordFacts.{open_state_in, spare_left};

use fm_records::ops::Phase;
use fm_records::records::{MachineRec, MachineReg, SpecReg, TaskRec};

/// The spec in the record of a task, if it is known.
pub fn spec_in(task: &TaskRec) -> Option<SpecReg>
    ensures { result ≡ task.now.0 }
{
    match &task.0.0 {
        Some(spec) => Some(spec.0),
        None => None,
    }
}

/// The bandwidth that the task of the record requests; 0 if its spec is not known.
pub fn request_in(task: &TaskRec) -> u32
    ensures { result ≡ request_of task.now.0 }
{
    match spec_in(task) {
        Some(spec) => spec.request,
        None => 0,
    }
}

/// The present attempt of the task of the record.
pub fn attempt_in(task: &TaskRec) -> u32
    ensures { result ≡ task.now.1.attempt }
{
    task.1.0.attempt
}

/// Whether the phase is the last, that of a task that is done.
pub fn is_done(phase: Phase) -> bool
    ensures { result ≡ is_done phase }
{
    match phase {
        Phase::Pending | Phase::Running => false,
        Phase::Done => true,
    }
}

/// The state in the record of a machine, if the machine is open: known at its present incarnation, and up.
pub fn state_in(machine: &MachineRec) -> Option<MachineReg>
    ensures { result ≡ open_state_in machine.now }
{
    match &machine.1.0.0 {
        Some(state) if state.0.up => Some(state.0),
        _ => None,
    }
}

/// Whether the machine of the record is open, and this is its present incarnation.
pub fn is_open_at(machine: &MachineRec, incarnation: u64) -> bool
    ensures { result ≡ (passes (λ r. true) (open_state_in machine.now) && machine.now.0 == incarnation) }
{
    state_in(machine).is_some() && machine.0 == incarnation
}

/// The use that the machine of the record reported at its present incarnation; 0 if it reported none.
pub fn used_in(machine: &MachineRec) -> u32
    ensures { result ≡ or_else 0 (option_map (λ r. r.used) machine.now.1.1) }
{
    match &machine.1.1.0 {
        Some(report) => report.0.used,
        None => 0,
    }
}

/// What a load leaves of a bandwidth; none if the load is greater.
pub fn spare_left(bandwidth: u32, load: u128) -> Option<u32>
    ensures { result ≡ spare_left bandwidth load }
{
    if load <= u128::from(bandwidth) {
        Some(bandwidth - load as u32)
    } else {
        None
    }
}
