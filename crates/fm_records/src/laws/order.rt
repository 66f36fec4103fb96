//! The laws of the orders of ids and records: `cmp` goes by the fields in their order.

ghost use Rattle.std.specs.Prelude.{◌≡◌};
ghost use Rattle.std.specs.Ordering.{nat_cmp};
ghost use Rattle.fm_records.specs.Preferences.{preferences_cmp};
ghost use Rattle.fm_records.specs.Orders.{phase_place, job_cmp, spec_cmp, progress_cmp, machine_cmp, report_cmp, spot_cmp};

use crate::ids::{CoordId, JobId, MachineId, TaskId};
use crate::ops::Phase;
use crate::prefer::Prefer;
use crate::records::{JobReg, MachineReg, Progress, Report, SpecReg, Spot};
use std::cmp::Ordering;

/// The order of two ids of jobs, as numbers.
pub fn job_ids(job_id: &JobId, other: &JobId) -> Ordering
    ensures { result ≡ nat_cmp job_id.now other.now }
{
    job_id.cmp(other)
}

/// The order of two ids of tasks, as numbers.
pub fn task_ids(task_id: &TaskId, other: &TaskId) -> Ordering
    ensures { result ≡ nat_cmp task_id.now other.now }
{
    task_id.cmp(other)
}

/// The order of two ids of machines, as numbers.
pub fn machine_ids(machine_id: &MachineId, other: &MachineId) -> Ordering
    ensures { result ≡ nat_cmp machine_id.now other.now }
{
    machine_id.cmp(other)
}

/// The order of two coordinators, by number.
pub fn coordinators(coordinator: &CoordId, other: &CoordId) -> Ordering
    ensures { result ≡ nat_cmp coordinator.now other.now }
{
    coordinator.cmp(other)
}

/// The order of two phases: pending, running, done.
pub fn phases(phase: &Phase, other: &Phase) -> Ordering
    ensures { result ≡ nat_cmp (phase_place phase.now) (phase_place other.now) }
{
    phase.cmp(other)
}

/// The order of two lists of preferences: entry by entry, each by machine and then credit; a list that begins another is less.
pub fn preferences(prefer: &Prefer, other: &Prefer) -> Ordering
    ensures { result ≡ preferences_cmp prefer.now other.now }
{
    prefer.cmp(other)
}

/// The order of two registers of jobs: by version, writer, and then the other fields, false before true.
pub fn job_registers(job: &JobReg, other: &JobReg) -> Ordering
    ensures { result ≡ job_cmp job.now other.now }
{
    job.cmp(other)
}

/// The order of two specs of tasks: by version, writer, and then the other fields, false before true.
pub fn specs(spec: &SpecReg, other: &SpecReg) -> Ordering
    ensures { result ≡ spec_cmp spec.now other.now }
{
    spec.cmp(other)
}

/// The order of two progresses: by attempt and then phase.
pub fn progresses(progress: &Progress, other: &Progress) -> Ordering
    ensures { result ≡ progress_cmp progress.now other.now }
{
    progress.cmp(other)
}

/// The order of two states of machines: by version, writer, and then the other fields, false before true.
pub fn machine_registers(state: &MachineReg, other: &MachineReg) -> Ordering
    ensures { result ≡ machine_cmp state.now other.now }
{
    state.cmp(other)
}

/// The order of two reports: by number and then use.
pub fn reports(report: &Report, other: &Report) -> Ordering
    ensures { result ≡ report_cmp report.now other.now }
{
    report.cmp(other)
}

/// The order of two spots: by machine and then incarnation.
pub fn spots(spot: &Spot, other: &Spot) -> Ordering
    ensures { result ≡ spot_cmp spot.now other.now }
{
    spot.cmp(other)
}
