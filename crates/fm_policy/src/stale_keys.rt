//! The keys of deltas that the network does not include yet, so that the deltas themselves need not be kept.
//!
//! An edit looks up the present records, so it needs to know only which of them changed. Several deltas are followed by
//! all their keys at once, each of which is kept once, however many deltas have it.

ghost use Rattle.std.specs.Prelude.{◌≡◌, ◌||◌, IfOk, OnOk, true};
ghost use Rattle.std.specs.Ordering.{is_eq};
ghost use Rattle.std.specs.List.{list_any};
ghost use Rattle.fm_policy.specs.Changes.{joined_keys, no_keys, has_no_keys};

use crate::changed::Changed;
use fm_lattice::join::OutOfMemory;
use fm_records::ids::{JobId, MachineId, TaskId};
use std::alloc::Global;
use std::collections::BTreeSet;
use std::marker::Model;

/// The jobs, tasks and machines of which some deltas told something: each once, ids rising. It is of the size of these
/// keys, however many deltas there were.
#[derive(Drop)]
pub struct Pending {
    jobs: BTreeSet<JobId>,
    tasks: BTreeSet<TaskId>,
    machines: BTreeSet<MachineId>,
}

impl Model for Pending {
    ghost use Rattle.fm_policy.specs.Changes.{Keys};

    ghost Value = { Keys };

    ghost view = { λ p. record { jobs = p.jobs.keys; tasks = p.tasks.keys; machines = p.machines.keys } };
}

impl Pending {
    /// No delta. It allocates nothing.
    pub fn new(alloc: Global) -> Pending
        ensures { result ≡ no_keys }
    {
        Pending {
            jobs: BTreeSet::new(alloc),
            tasks: BTreeSet::new(alloc),
            machines: BTreeSet::new(alloc),
        }
    }

    /// Whether the deltas told of nothing.
    pub fn is_empty(&self) -> bool
        ensures { result ≡ has_no_keys self.now }
    {
        self.jobs.is_empty() && self.tasks.is_empty() && self.machines.is_empty()
    }

    /// How many keys there are.
    pub fn len(&self) -> usize {
        let jobs_and_tasks = self.jobs.len().saturating_add(self.tasks.len());
        jobs_and_tasks.saturating_add(self.machines.len())
    }

    /// Adds the keys of one more delta. O(m log n) for m of them. OutOfMemory; then some of them may have been added.
    pub fn add(&mut self, changed: &Changed) -> Result<(), OutOfMemory>
        ensures { OnOk result (self.new ≡ joined_keys self.old changed.now) }
    {
        add_all(&mut self.jobs, changed.jobs())?;
        add_all(&mut self.tasks, changed.tasks())?;
        add_all(&mut self.machines, changed.machines())?;
        let _jobs = self.jobs.len();
        let _tasks = self.tasks.len();
        let _machines = self.machines.len();
        Ok(())
    }

    /// The keys as those of one delta. O(n).
    pub fn changed(&self, alloc: Global) -> Result<Changed, OutOfMemory>
        ensures { IfOk result (λ c. c ≡ self.now) }
    {
        let jobs = self.jobs.iter().copied().collect(alloc)?;
        let tasks = self.tasks.iter().copied().collect(alloc)?;
        let machines = self.machines.iter().copied().collect(alloc)?;
        Ok(Changed::of(jobs, tasks, machines))
    }
}

// Adds each id to the set.
fn add_all<T: Ord + Copy + Drop>(set: &mut BTreeSet<T>, ids: &[T]) -> Result<(), OutOfMemory>
    ensures { OnOk result ((q : T) → list_any (λ x. is_eq (T.cmp q x)) set.new.keys
        ≡ (list_any (λ x. is_eq (T.cmp q x)) set.old.keys || list_any (λ x. is_eq (T.cmp q x)) ids.now)) }
{
    for id in ids {
        set.insert(*id)?;
    }
    Ok(())
}
