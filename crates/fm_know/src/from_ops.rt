//! The knowledge of one operation or of several: the delta by which an operation is told, kept and sent.
//!
//! A delta is a state like any other, so one join serves for operations, packets and complete states (delta-state
//! CRDTs: Almeida, Shoker and Baquero, 2018).

ghost use Rattle.std.specs.Prelude.{◌≡◌, ◌∷◌, ◌++◌, [], List, None, IsTrue, is_none, IfOk, OnOk};
ghost use Rattle.std.specs.List.{list_all};
ghost use Rattle.fm_records.specs.Ops.{op_fault};
ghost use Rattle.fm_records.specs.Know.{table_of};
ghost use Rattle.fm_records.specs.Ranges.{CanBe, fields_fit};

use crate::knowledge::Knowledge;
use crate::laws::{law_u32, law_u64, law_u128};
use fm_lattice::chain::Chain;
use fm_lattice::constructors::{Both, Lex, Max, Min, Opt};
use fm_lattice::join::{Join, OutOfMemory};
use fm_lattice::map::JoinMap;
use fm_records::ids::{CoordId, JobId, MachineId, TaskId};
use fm_records::ops::{Op, Phase};
use fm_records::records::{
    JobReg, MachineRec, MachineReg, Progress, Report, SpecReg, Spot, TaskRec,
};
use std::alloc::Global;

impl Knowledge {
    /// The table of the one operation. The caller must have checked that its `check` is Ok.
    pub fn delta_of(alloc: Global, op: &Op) -> Result<Knowledge, OutOfMemory>
        requires { op_fault op.now ≡ None }
        ensures { IfOk result (λ k. k ≡ table_of (op.now ∷ [])) }
    {
        law_fits(op);
        Ok(Knowledge {
            jobs: jobs_of(alloc, op)?,
            tasks: tasks_of(alloc, op)?,
            machines: machines_of(alloc, op)?,
            proposals: proposals_of(alloc, op)?,
        })
    }

    /// The table of the operations. The caller must have checked that the `check` of each is Ok.
    pub fn told(alloc: Global, ops: &[Op]) -> Result<Knowledge, OutOfMemory>
        requires { IsTrue (list_all (λ op. is_none (op_fault op)) ops.now) }
        ensures { IfOk result (λ k. k ≡ table_of ops.now) }
    {
        let mut all = Knowledge::empty(alloc);
        tell_all(&mut all, alloc, ops)?;
        Ok(all)
    }
}

// Takes all operations in. Before, nothing is known.
fn tell_all(all: &mut Knowledge, alloc: Global, ops: &[Op]) -> Result<(), OutOfMemory>
    requires nothing { all.old ≡ table_of [] }
    requires ops { IsTrue (list_all (λ op. is_none (op_fault op)) ops.now) }
    ensures { OnOk result (all.new ≡ table_of ops.now) }
{
    for op in ops {
        tell(all, alloc, op)?;
    }
    Ok(())
}

// Takes the operation in.
fn tell(all: &mut Knowledge, alloc: Global, op: &Op) -> Result<(), OutOfMemory>
    requires { op_fault op.now ≡ None }
    ensures { (S : List Op) → all.old ≡ table_of S → OnOk result (all.new ≡ table_of (S ++ op.now ∷ [])) }
{
    let delta = Knowledge::delta_of(alloc, op)?;
    all.join_into(&delta)
}

// The map of the one pair.
fn one<K: Chain, V: Join>(alloc: Global, key: K, value: V) -> Result<JoinMap<K, V>, OutOfMemory>
    ensures { IfOk result (λ map. map ≡ (key, value) ∷ []) }
{
    let mut map = JoinMap::new(alloc);
    map.put(key, value)?;
    Ok(map)
}

// What the operation tells of a job.
fn jobs_of(alloc: Global, op: &Op) -> Result<JoinMap<JobId, Max<JobReg>>, OutOfMemory>
    requires { op_fault op.now ≡ None }
    ensures { IfOk result (λ jobs. jobs ≡ (table_of (op.now ∷ [])).jobs) }
{
    match *op {
        Op::Job { id, .. } => one(alloc, id, Max(JobReg::of(op).unwrap())),
        _ => Ok(JoinMap::new(alloc)),
    }
}

// What the operation tells of a task: if it is a spec, the task is at attempt 0, pending.
fn tasks_of(alloc: Global, op: &Op) -> Result<JoinMap<TaskId, TaskRec>, OutOfMemory>
    requires { op_fault op.now ≡ None }
    ensures { IfOk result (λ tasks. tasks ≡ (table_of (op.now ∷ [])).tasks) }
{
    match *op {
        Op::Spec { id, .. } | Op::Progress { id, .. } => {
            let spec = SpecReg::of(op).map(|spec| Max(spec));
            let progress = Progress::of(op).unwrap_or(Progress::new(0, Phase::Pending));
            one(alloc, id, Both(Opt(spec), Max(progress)))
        }
        _ => Ok(JoinMap::new(alloc)),
    }
}

// What the operation tells of a machine at an incarnation.
fn machines_of(alloc: Global, op: &Op) -> Result<JoinMap<MachineId, MachineRec>, OutOfMemory>
    requires { op_fault op.now ≡ None }
    ensures { IfOk result (λ machines. machines ≡ (table_of (op.now ∷ [])).machines) }
{
    match *op {
        Op::Machine {
            id,
            incarnation,
            ..
        }
        | Op::Report {
            id,
            incarnation,
            ..
        } => {
            let state = MachineReg::of(op).map(|state| Max(state));
            let report = Report::of(op).map(|report| Max(report));
            one(alloc, id, Lex(incarnation, Both(Opt(state), Opt(report))))
        }
        _ => Ok(JoinMap::new(alloc)),
    }
}

// What the operation tells of where a coordinator would run an attempt.
fn proposals_of(
    alloc: Global,
    op: &Op,
) -> Result<JoinMap<(TaskId, u32), JoinMap<CoordId, Min<Spot>>>, OutOfMemory>
    requires { op_fault op.now ≡ None }
    ensures { IfOk result (λ proposals. proposals ≡ (table_of (op.now ∷ [])).proposals) }
{
    match *op {
        Op::Propose {
            id,
            attempt,
            coordinator,
            ..
        } => {
            let coordinator = CoordId::new(coordinator).unwrap();
            let spots = one(alloc, coordinator, Min(Spot::of(op).unwrap()))?;
            one(alloc, (id, attempt), spots)
        }
        _ => Ok(JoinMap::new(alloc)),
    }
}

// The fields of an operation fit their types, which a clause does not see by itself.
fn law_fits(op: &Op)
    ensures { IsTrue (fields_fit op.now) }
{
    match *op {
        Op::Job { id, version, .. } => {
            law_u128(id.value());
            law_u64(version);
        }
        Op::Spec {
            id,
            version,
            job,
            prefer,
            ..
        } => {
            law_u128(id.value());
            law_u64(version);
            law_u128(job.value());
            prefer.law_fits();
        }
        Op::Progress { id, attempt, .. } => {
            law_u128(id.value());
            law_u32(attempt);
        }
        Op::Machine {
            id,
            incarnation,
            version: number,
            ..
        }
        | Op::Report {
            id,
            incarnation,
            number,
            ..
        } => {
            law_u128(id.value());
            law_u64(incarnation);
            law_u64(number);
        }
        Op::Propose {
            id,
            attempt,
            machine,
            incarnation,
            ..
        } => {
            law_u128(id.value());
            law_u32(attempt);
            law_u128(machine.value());
            law_u64(incarnation);
        }
    }
}
