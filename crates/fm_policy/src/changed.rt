//! Which records a delta touches: the keys by which a keeper looks at what may differ, and at nothing else.

ghost use Rattle.std.specs.Prelude.{◌≡◌, ◌∷◌, ◌++◌, [], map, IfOk};
ghost use Rattle.std.specs.Ordering.{nat_cmp};
ghost use Rattle.fm_records.specs.Sets.{rising};
ghost use Rattle.fm_policy.specs.Changes.{changed_keys, changed_tasks};

use fm_know::knowledge::Knowledge;
use fm_lattice::join::OutOfMemory;
use fm_records::ids::{JobId, MachineId, TaskId};
use std::alloc::Global;
use std::collections::BTreeSet;
use std::marker::Model;

/// The jobs, tasks and machines of which a delta tells something: each once, ids rising.
#[derive(Debug, Drop)]
pub struct Changed {
    jobs: Vec<JobId>,
    tasks: Vec<TaskId>,
    machines: Vec<MachineId>,
}

impl Model for Changed {
    ghost use Rattle.fm_policy.specs.Changes.{Keys};

    ghost Value = { Keys };

    ghost view = { λ c. record { jobs = c.jobs.items; tasks = c.tasks.items; machines = c.machines.items } };
}

impl Changed {
    // These keys.
    pub(crate) fn of(jobs: Vec<JobId>, tasks: Vec<TaskId>, machines: Vec<MachineId>) -> Changed
        ensures { result ≡ record { jobs = jobs.items; tasks = tasks.items; machines = machines.items } }
    {
        Changed {
            jobs,
            tasks,
            machines,
        }
    }

    /// The jobs, ids rising.
    pub fn jobs(&self) -> &[JobId]
        ensures { result.now ≡ self.now.jobs }
    {
        self.jobs.as_slice()
    }

    /// The tasks, ids rising.
    pub fn tasks(&self) -> &[TaskId]
        ensures { result.now ≡ self.now.tasks }
    {
        self.tasks.as_slice()
    }

    /// The machines, ids rising.
    pub fn machines(&self) -> &[MachineId]
        ensures { result.now ≡ self.now.machines }
    {
        self.machines.as_slice()
    }
}

/// The keys of a delta: its jobs, its machines, and the tasks with a record or a proposal in it. O(n log n).
pub fn changed_of(alloc: Global, delta: &Knowledge) -> Result<Changed, OutOfMemory>
    ensures { IfOk result (λ c. c ≡ changed_keys delta.now) }
{
    let jobs = delta.jobs().iter().map(|(job, _)| *job).collect(alloc)?;
    let tasks = tasks_of(alloc, delta)?;
    let machines = delta
        .machines()
        .iter()
        .map(|(machine, _)| *machine)
        .collect(alloc)?;
    Ok(Changed {
        jobs,
        tasks,
        machines,
    })
}

// The tasks with a record or a proposal.
fn tasks_of(alloc: Global, delta: &Knowledge) -> Result<Vec<TaskId>, OutOfMemory>
    ensures { IfOk result (λ tasks. tasks.items ≡ changed_tasks delta.now) }
{
    let mut named = BTreeSet::new(alloc);
    for (task, _) in delta.tasks().iter() {
        named.insert(*task)?;
    }
    for (attempt, _) in delta.proposals().iter() {
        named.insert(attempt.0)?;
    }
    Ok(named.iter().copied().collect(alloc)?)
}
