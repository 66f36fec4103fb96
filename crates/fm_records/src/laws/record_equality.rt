//! The laws of equality of plain values: `==` holds exactly if the values are the same.

ghost use Rattle.std.specs.Prelude.{◌≡◌, ◌↔◌, IsTrue};

use crate::ids::{CoordId, JobId, MachineId, TaskId};
use crate::ops::{Field, Op, Phase};
use crate::prefer::Prefer;
use crate::records::{JobReg, MachineReg, Progress, Report, SpecReg, Spot};
use crate::refusal::Refusal;

/// Whether two ids of jobs are the same.
pub fn job_ids(job_id: &JobId, other: &JobId) -> bool
    ensures { IsTrue result ↔ (job_id.now ≡ other.now) }
{
    job_id == other
}

/// Whether two ids of tasks are the same.
pub fn task_ids(task_id: &TaskId, other: &TaskId) -> bool
    ensures { IsTrue result ↔ (task_id.now ≡ other.now) }
{
    task_id == other
}

/// Whether two ids of machines are the same.
pub fn machine_ids(machine_id: &MachineId, other: &MachineId) -> bool
    ensures { IsTrue result ↔ (machine_id.now ≡ other.now) }
{
    machine_id == other
}

/// Whether two numbers of coordinators are the same.
pub fn coordinators(coordinator: &CoordId, other: &CoordId) -> bool
    ensures { IsTrue result ↔ (coordinator.now ≡ other.now) }
{
    coordinator == other
}

/// Whether two phases are the same.
pub fn phases(phase: &Phase, other: &Phase) -> bool
    ensures { IsTrue result ↔ (phase.now ≡ other.now) }
{
    phase == other
}

/// Whether two fields are the same.
pub fn fields(field: &Field, other: &Field) -> bool
    ensures { IsTrue result ↔ (field.now ≡ other.now) }
{
    field == other
}

/// Whether two lists of preferences are the same.
pub fn preferences(prefer: &Prefer, other: &Prefer) -> bool
    ensures { IsTrue result ↔ (prefer.now ≡ other.now) }
{
    prefer == other
}

/// Whether two operations are the same.
pub fn ops(op: &Op, other: &Op) -> bool
    ensures { IsTrue result ↔ (op.now ≡ other.now) }
{
    op == other
}

/// Whether two refusals are the same.
pub fn refusals(refusal: &Refusal, other: &Refusal) -> bool
    ensures { IsTrue result ↔ (refusal.now ≡ other.now) }
{
    refusal == other
}

/// Whether two registers of jobs are the same.
pub fn job_registers(job: &JobReg, other: &JobReg) -> bool
    ensures { IsTrue result ↔ (job.now ≡ other.now) }
{
    job == other
}

/// Whether two specs of tasks are the same.
pub fn specs(spec: &SpecReg, other: &SpecReg) -> bool
    ensures { IsTrue result ↔ (spec.now ≡ other.now) }
{
    spec == other
}

/// Whether two progresses are the same.
pub fn progresses(progress: &Progress, other: &Progress) -> bool
    ensures { IsTrue result ↔ (progress.now ≡ other.now) }
{
    progress == other
}

/// Whether two states of machines are the same.
pub fn machine_registers(state: &MachineReg, other: &MachineReg) -> bool
    ensures { IsTrue result ↔ (state.now ≡ other.now) }
{
    state == other
}

/// Whether two reports are the same.
pub fn reports(report: &Report, other: &Report) -> bool
    ensures { IsTrue result ↔ (report.now ≡ other.now) }
{
    report == other
}

/// Whether two spots are the same.
pub fn spots(spot: &Spot, other: &Spot) -> bool
    ensures { IsTrue result ↔ (spot.now ≡ other.now) }
{
    spot == other
}
