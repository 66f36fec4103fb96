//! Looking up changed records again: if the others are unchanged, all records are then the present ones.

ghost use Rattle.std.specs.Prelude.{◌≡◌, ◌++◌, ◌∷◌, [], ℕ, false, Option, map, IfOk, OnOk};
ghost use Rattle.std.specs.Ordering.{nat_cmp};
ghost use Rattle.std.specs.BTreeMap.{get};
ghost use Rattle.fm_lattice.specs.Maps.{lookup};
ghost use Rattle.fm_records.specs.Table.{MachineValue};
ghost use Rattle.fm_records.specs.Facts.{job_of, won_spot, attempt_of};
ghost use Rattle.fm_edit.specs.Dirty.{has_id};
ghost use Rattle.fm_edit.specs.inner.CachedValues.{values_at, has_value, AreValuesOf};
ghost use Rattle.fm_edit.specs.declared.look.Key.{Key as KeyName};

use crate::look::Look;
use crate::record_cache::RecordCache;
use fm_know::record_facts::attempt_in;
use fm_lattice::join::OutOfMemory;
use fm_policy::changed::Changed;
use fm_records::ids::{JobId, MachineId, TaskId};
use fm_records::records::{JobReg, MachineRec, Spot, TaskRec};
use std::alloc::Global;
use std::collections::BTreeMap;

// Sees one job's register again.
fn see_job<L: Look>(
    jobs: &mut BTreeMap<JobId, JobReg>,
    look: &mut L,
    job: JobId,
) -> Result<(), OutOfMemory>
    ensures seen { OnOk result (get nat_cmp jobs.new job ≡ job_of (L.table look.old) job) }
    ensures others { OnOk result ((q : ℕ) → has_id (job ∷ []) q ≡ false
        → get nat_cmp jobs.new q ≡ get nat_cmp jobs.old q) }
    ensures key { OnOk result (L.keys look.new ≡ L.keys look.old ++ KeyName.Job job ∷ []) }
    ensures same { L.table look.new ≡ L.table look.old }
{
    match look.job(job)? {
        Some(register) => {
            jobs.insert(job, register)?;
        }
        None => {
            jobs.remove(&job);
        }
    }
    Ok(())
}

/// Sees the registers of the jobs again, and looks up exactly these. O(m log n).
pub(crate) fn see_jobs<L: Look>(
    jobs: &mut BTreeMap<JobId, JobReg>,
    look: &mut L,
    changed: &[JobId],
) -> Result<(), OutOfMemory>
    requires { (q : ℕ) → has_id changed.now q ≡ false → get nat_cmp jobs.old q ≡ job_of (L.table look.old) q }
    ensures seen { OnOk result ((q : ℕ) → get nat_cmp jobs.new q ≡ job_of (L.table look.old) q) }
    ensures keys { OnOk result (L.keys look.new ≡ L.keys look.old ++ map KeyName.Job changed.now) }
    ensures same { L.table look.new ≡ L.table look.old }
{
    for job in changed {
        see_job(jobs, look, *job)?;
    }
    Ok(())
}

// Sees one task's record again.
fn see_task<L: Look>(
    tasks: &mut BTreeMap<TaskId, TaskRec>,
    look: &mut L,
    task: TaskId,
) -> Result<(), OutOfMemory>
    ensures seen { OnOk result (get nat_cmp tasks.new task ≡ lookup nat_cmp task (L.table look.old).tasks) }
    ensures others { OnOk result ((q : ℕ) → has_id (task ∷ []) q ≡ false
        → get nat_cmp tasks.new q ≡ get nat_cmp tasks.old q) }
    ensures key { OnOk result (L.keys look.new ≡ L.keys look.old ++ KeyName.Task task ∷ []) }
    ensures same { L.table look.new ≡ L.table look.old }
{
    match look.task(task)? {
        Some(known) => {
            tasks.insert(task, known)?;
        }
        None => {
            tasks.remove(&task);
        }
    }
    Ok(())
}

/// Sees the records of the tasks again, and looks up exactly these. O(m log n).
pub(crate) fn see_tasks<L: Look>(
    tasks: &mut BTreeMap<TaskId, TaskRec>,
    look: &mut L,
    changed: &[TaskId],
) -> Result<(), OutOfMemory>
    requires { (q : ℕ) → has_id changed.now q ≡ false
        → get nat_cmp tasks.old q ≡ lookup nat_cmp q (L.table look.old).tasks }
    ensures seen { OnOk result ((q : ℕ) → get nat_cmp tasks.new q ≡ lookup nat_cmp q (L.table look.old).tasks) }
    ensures keys { OnOk result (L.keys look.new ≡ L.keys look.old ++ map KeyName.Task changed.now) }
    ensures same { L.table look.new ≡ L.table look.old }
{
    for task in changed {
        see_task(tasks, look, *task)?;
    }
    Ok(())
}

// Where the winner of the attempt of the task would run it.
fn spot_at<L: Look>(look: &mut L, task: TaskId, attempt: u32) -> Result<Option<Spot>, OutOfMemory>
    ensures value { attempt ≡ attempt_of (L.table look.old) task
        → IfOk result (λ s. s ≡ won_spot (L.table look.old) task) }
    ensures key { OnOk result (L.keys look.new ≡ L.keys look.old ++ KeyName.Winner task attempt ∷ []) }
    ensures same { L.table look.new ≡ L.table look.old }
{
    match look.winner(task, attempt)? {
        Some(winner) => Ok(Some(winner.spot())),
        None => Ok(None),
    }
}

// Sees again where the winner of the task's present attempt would run it.
fn see_spot<L: Look>(
    spots: &mut BTreeMap<TaskId, Spot>,
    tasks: &BTreeMap<TaskId, TaskRec>,
    look: &mut L,
    task: TaskId,
) -> Result<(), OutOfMemory>
    requires { get nat_cmp tasks.now task ≡ lookup nat_cmp task (L.table look.old).tasks }
    ensures seen { OnOk result (get nat_cmp spots.new task ≡ won_spot (L.table look.old) task) }
    ensures others { OnOk result ((q : ℕ) → has_id (task ∷ []) q ≡ false
        → get nat_cmp spots.new q ≡ get nat_cmp spots.old q) }
    ensures key { OnOk result (L.keys look.new ≡ L.keys look.old
        ++ KeyName.Winner task (attempt_of (L.table look.old) task) ∷ []) }
    ensures same { L.table look.new ≡ L.table look.old }
{
    let attempt = match tasks.get(&task) {
        Some(known) => attempt_in(known),
        None => 0,
    };
    match spot_at(look, task, attempt)? {
        Some(spot) => {
            spots.insert(task, spot)?;
        }
        None => {
            spots.remove(&task);
        }
    }
    Ok(())
}

/// Sees again where the winners of the tasks' present attempts would run them, and looks up exactly these. The records
/// of the tasks are seen already. O(m log n).
pub(crate) fn see_spots<L: Look>(
    spots: &mut BTreeMap<TaskId, Spot>,
    tasks: &BTreeMap<TaskId, TaskRec>,
    look: &mut L,
    changed: &[TaskId],
) -> Result<(), OutOfMemory>
    requires tasks { (q : ℕ) → get nat_cmp tasks.now q ≡ lookup nat_cmp q (L.table look.old).tasks }
    requires others { (q : ℕ) → has_id changed.now q ≡ false → get nat_cmp spots.old q ≡ won_spot (L.table look.old) q }
    ensures seen { OnOk result ((q : ℕ) → get nat_cmp spots.new q ≡ won_spot (L.table look.old) q) }
    ensures keys { OnOk result (L.keys look.new ≡ L.keys look.old
        ++ map (λ t. KeyName.Winner t (attempt_of (L.table look.old) t)) changed.now) }
    ensures same { L.table look.new ≡ L.table look.old }
{
    for task in changed {
        see_spot(spots, tasks, look, *task)?;
    }
    Ok(())
}

/// The records of the machines, looked up in turn: nothing else is looked up. O(m log n).
pub(crate) fn machines_now<L: Look>(
    alloc: Global,
    look: &mut L,
    machines: &[MachineId],
) -> Result<Vec<(MachineId, Option<MachineRec>)>, OutOfMemory>
    ensures values { IfOk result (λ vs. vs.items
        ≡ values_at (λ m. lookup nat_cmp m (L.table look.old).machines) machines.now) }
    ensures keys { OnOk result (L.keys look.new ≡ L.keys look.old ++ map KeyName.Machine machines.now) }
    ensures same { L.table look.new ≡ L.table look.old }
{
    let mut values = Vec::new(alloc);
    for machine in machines {
        let known = look.machine(*machine)?;
        values.push((*machine, known))?;
    }
    Ok(values)
}

// Sets one machine's record.
fn set_machine(
    machines: &mut BTreeMap<MachineId, MachineRec>,
    machine: MachineId,
    value: Option<MachineRec>,
) -> Result<(), OutOfMemory>
    ensures seen { OnOk result (get nat_cmp machines.new machine ≡ value) }
    ensures others { OnOk result ((q : ℕ) → has_id (machine ∷ []) q ≡ false
        → get nat_cmp machines.new q ≡ get nat_cmp machines.old q) }
{
    match value {
        Some(known) => {
            machines.insert(machine, known)?;
        }
        None => {
            machines.remove(&machine);
        }
    }
    Ok(())
}

/// Sets the records of the machines. O(m log n).
pub(crate) fn set_machines(
    machines: &mut BTreeMap<MachineId, MachineRec>,
    values: &[(MachineId, Option<MachineRec>)],
) -> Result<(), OutOfMemory>
    ensures { OnOk result ((f : ℕ → Option MachineValue) → AreValuesOf f values.now
        → ((q : ℕ) → has_value values.now q ≡ false → get nat_cmp machines.old q ≡ f q) → (q : ℕ)
        → get nat_cmp machines.new q ≡ f q) }
{
    for (machine, value) in values {
        set_machine(machines, *machine, *value)?;
    }
    Ok(())
}

/// Sees all that a delta changed again; the records of its machines are looked up already. O(m log n).
pub(crate) fn see<L: Look>(
    seen: &mut RecordCache,
    look: &mut L,
    changed: &Changed,
    machines: &[(MachineId, Option<MachineRec>)],
) -> Result<(), OutOfMemory>
    requires jobs { (q : ℕ) → has_id changed.now.jobs q ≡ false
        → get nat_cmp seen.old.jobs q ≡ job_of (L.table look.old) q }
    requires tasks { (q : ℕ) → has_id changed.now.tasks q ≡ false
        → get nat_cmp seen.old.tasks q ≡ lookup nat_cmp q (L.table look.old).tasks }
    requires spots { (q : ℕ) → has_id changed.now.tasks q ≡ false
        → get nat_cmp seen.old.spots q ≡ won_spot (L.table look.old) q }
    requires machines { (q : ℕ) → has_id changed.now.machines q ≡ false
        → get nat_cmp seen.old.machines q ≡ lookup nat_cmp q (L.table look.old).machines }
    requires values { machines.now
        ≡ values_at (λ m. lookup nat_cmp m (L.table look.old).machines) changed.now.machines }
    ensures jobs { OnOk result ((q : ℕ) → get nat_cmp seen.new.jobs q ≡ job_of (L.table look.old) q) }
    ensures tasks { OnOk result ((q : ℕ) → get nat_cmp seen.new.tasks q ≡ lookup nat_cmp q (L.table look.old).tasks) }
    ensures spots { OnOk result ((q : ℕ) → get nat_cmp seen.new.spots q ≡ won_spot (L.table look.old) q) }
    ensures machines { OnOk result ((q : ℕ) → get nat_cmp seen.new.machines q
        ≡ lookup nat_cmp q (L.table look.old).machines) }
    ensures keys { OnOk result (L.keys look.new ≡ L.keys look.old ++ map KeyName.Job changed.now.jobs
        ++ map KeyName.Task changed.now.tasks ++ map
        (λ t. KeyName.Winner t (attempt_of (L.table look.old) t)) changed.now.tasks) }
    ensures same { L.table look.new ≡ L.table look.old }
{
    set_machines(&mut seen.machines, machines)?;
    see_jobs(&mut seen.jobs, look, changed.jobs())?;
    see_tasks(&mut seen.tasks, look, changed.tasks())?;
    see_spots(&mut seen.spots, &seen.tasks, look, changed.tasks())?;
    Ok(())
}
