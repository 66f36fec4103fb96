//! Which machines turned, and which tasks are dirty: a delta can change no other task.
//!
//! A task is live by its own record and its job's, and held by its winner's and its machine's. So the tasks of the
//! delta are dirty, those listed at a job of the delta, and those listed at a machine that opened, closed or got
//! another incarnation. A report alone makes no task dirty.

ghost use Rattle.std.specs.Prelude.{◌≡◌, ◌⊎◌, ◌<◌, ◌^◌, ℕ, true, Some, filter, map, IfOk, OnOk};
ghost use Rattle.std.specs.Ordering.{nat_cmp};
ghost use Rattle.fm_records.specs.Rising.{Rises};
ghost use Rattle.fm_net.specs.declared.node.Node.{Node as NodeName};
ghost use Rattle.fm_edit.specs.Dirty.{has_id};
ghost use Rattle.fm_edit.specs.CacheModel.{seen_in};
ghost use Rattle.fm_edit.specs.CacheUpdate.{standing, standing_of, same_standing, turns};
ghost use Rattle.fm_edit.specs.TaskIndex.{lists};
ghost use Rattle.fm_edit.specs.inner.TaskIndexParts.{ListsAtOne};

use crate::record_cache::RecordCache;
use crate::task_index::TaskIndex;
use fm_know::record_facts::state_in;
use fm_lattice::join::OutOfMemory;
use fm_net::node::Node;
use fm_policy::changed::Changed;
use fm_records::ids::{JobId, MachineId, TaskId};
use fm_records::records::MachineRec;
use std::alloc::Global;
use std::collections::BTreeSet;

/// Of the machines with these records now, those that opened or closed since they were seen, or are open at another
/// incarnation. O(m log n).
pub(crate) fn turned(
    alloc: Global,
    seen: &RecordCache,
    values: &[(MachineId, Option<MachineRec>)],
) -> Result<Vec<MachineId>, OutOfMemory>
    ensures { IfOk result (λ ms. ms.items ≡ map (λ v. v.0) (filter
        (λ v. turns ((seen_in seen.now).machine v.0) v.1) values.now)) }
{
    Ok(
        values
            .iter()
            .filter(|value| turns(seen, value.0, &value.1))
            .map(|value| value.0)
            .collect(alloc)?,
    )
}

// Whether the machine turned.
fn turns(seen: &RecordCache, machine: MachineId, now: &Option<MachineRec>) -> bool
    ensures { result ≡ turns ((seen_in seen.now).machine machine) now.now }
{
    let before = match seen.machines.get(&machine) {
        Some(known) => standing(known),
        None => None,
    };
    let after = match now {
        Some(known) => standing(known),
        None => None,
    };
    match (before, after) {
        (None, None) => false,
        (Some(old), Some(new)) => old != new,
        (None, Some(_)) | (Some(_), None) => true,
    }
}

// The incarnation at which a machine with the record is open.
fn standing(known: &MachineRec) -> Option<u64>
    ensures { result ≡ standing_of known.now }
{
    let _open = state_in(known)?;
    Some(known.0)
}

/// The tasks of a delta, those that are listed at a job of the delta, and those listed at a machine that turned, and
/// no others: ids rising. O(m log n) in these.
pub(crate) fn dirty_tasks(
    alloc: Global,
    index: &TaskIndex,
    changed: &Changed,
    turned: &[MachineId],
) -> Result<Vec<TaskId>, OutOfMemory>
    ensures rises { IfOk result (λ ts. Rises nat_cmp ts.items) }
    ensures told { IfOk result (λ ts. (t : ℕ) → has_id changed.now.tasks t ≡ true → has_id ts.items t ≡ true) }
    ensures jobs { IfOk result (λ ts. (j t : ℕ) → has_id changed.now.jobs j ≡ true → t < 2 ^ 128
        → lists index.now (NodeName.Unscheduled j) t ≡ true → has_id ts.items t ≡ true) }
    ensures machines { IfOk result (λ ts. (m t : ℕ) → has_id turned.now m ≡ true → t < 2 ^ 128
        → lists index.now (NodeName.Machine m) t ≡ true → has_id ts.items t ≡ true) }
    ensures only { IfOk result (λ ts. (t : ℕ) → has_id ts.items t ≡ true → (has_id changed.now.tasks t ≡ true)
        ⊎ (ListsAtOne index.now NodeName.Unscheduled changed.now.jobs t
        ⊎ ListsAtOne index.now NodeName.Machine turned.now t)) }
{
    let mut tasks = BTreeSet::new(alloc);
    add_told(&mut tasks, changed.tasks())?;
    add_of_jobs(&mut tasks, index, changed.jobs())?;
    add_of_machines(&mut tasks, index, turned)?;
    in_order(alloc, &tasks)
}

// The ids of the set, rising.
fn in_order(alloc: Global, tasks: &BTreeSet<TaskId>) -> Result<Vec<TaskId>, OutOfMemory>
    ensures same { IfOk result (λ ts. ts.items ≡ tasks.now.keys) }
    ensures rises { IfOk result (λ ts. Rises nat_cmp ts.items) }
{
    Ok(tasks.iter().copied().collect(alloc)?)
}

// Adds the tasks.
fn add_told(tasks: &mut BTreeSet<TaskId>, told: &[TaskId]) -> Result<(), OutOfMemory>
    ensures told { OnOk result ((t : ℕ) → has_id told.now t ≡ true → has_id tasks.new.keys t ≡ true) }
    ensures only { OnOk result ((t : ℕ) → has_id tasks.new.keys t ≡ true → (has_id tasks.old.keys t ≡ true)
        ⊎ (has_id told.now t ≡ true)) }
{
    for task in told {
        tasks.insert(*task)?;
    }
    Ok(())
}

// Adds the tasks that are listed at the jobs.
fn add_of_jobs(
    tasks: &mut BTreeSet<TaskId>,
    index: &TaskIndex,
    jobs: &[JobId],
) -> Result<(), OutOfMemory>
    ensures grows { OnOk result ((t : ℕ) → has_id tasks.old.keys t ≡ true → has_id tasks.new.keys t ≡ true) }
    ensures listed { OnOk result ((j t : ℕ) → has_id jobs.now j ≡ true → t < 2 ^ 128
        → lists index.now (NodeName.Unscheduled j) t ≡ true → has_id tasks.new.keys t ≡ true) }
    ensures only { OnOk result ((t : ℕ) → has_id tasks.new.keys t ≡ true → (has_id tasks.old.keys t ≡ true)
        ⊎ ListsAtOne index.now NodeName.Unscheduled jobs.now t) }
{
    for job in jobs {
        add_listed(tasks, index, &Node::Unscheduled(*job))?;
    }
    Ok(())
}

// Adds the tasks that are listed at the machines.
fn add_of_machines(
    tasks: &mut BTreeSet<TaskId>,
    index: &TaskIndex,
    machines: &[MachineId],
) -> Result<(), OutOfMemory>
    ensures grows { OnOk result ((t : ℕ) → has_id tasks.old.keys t ≡ true → has_id tasks.new.keys t ≡ true) }
    ensures listed { OnOk result ((m t : ℕ) → has_id machines.now m ≡ true → t < 2 ^ 128
        → lists index.now (NodeName.Machine m) t ≡ true → has_id tasks.new.keys t ≡ true) }
    ensures only { OnOk result ((t : ℕ) → has_id tasks.new.keys t ≡ true → (has_id tasks.old.keys t ≡ true)
        ⊎ ListsAtOne index.now NodeName.Machine machines.now t) }
{
    for machine in machines {
        add_listed(tasks, index, &Node::Machine(*machine))?;
    }
    Ok(())
}

// Adds the tasks that are listed at the node. O(log n) for each.
fn add_listed(
    tasks: &mut BTreeSet<TaskId>,
    index: &TaskIndex,
    node: &Node,
) -> Result<(), OutOfMemory>
    ensures grows { OnOk result ((t : ℕ) → has_id tasks.old.keys t ≡ true → has_id tasks.new.keys t ≡ true) }
    ensures listed { OnOk result ((t : ℕ) → t < 2 ^ 128 → lists index.now node.now t ≡ true
        → has_id tasks.new.keys t ≡ true) }
    ensures only { OnOk result ((t : ℕ) → has_id tasks.new.keys t ≡ true → (has_id tasks.old.keys t ≡ true)
        ⊎ (lists index.now node.now t ≡ true)) }
{
    let first = (*node, TaskId::new(0));
    let last = (*node, TaskId::new(u128::MAX));
    for pair in index.listed.range(first..=last) {
        tasks.insert(pair.1)?;
    }
    Ok(())
}
