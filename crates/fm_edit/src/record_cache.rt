//! The records as they were last seen, since what is known has only the present ones.
//!
//! An Editor has to take a task out of the lists and sums in which it was, and the delta has been merged already when
//! the Editor follows it.

ghost use Rattle.std.specs.Prelude.{◌≡◌, ◌&&◌, ℕ, true, ◌<◌, ◌^◌, [], not, is_some, option_map, length, Some};
ghost use Rattle.fm_records.specs.Know.{table_of};
ghost use Rattle.std.specs.Ordering.{nat_cmp};
ghost use Rattle.fm_lattice.specs.Maps.{lookup, IsRising};
ghost use Rattle.fm_records.specs.Table.{Table};
ghost use Rattle.fm_records.specs.Options.{passes};
ghost use Rattle.fm_net.specs.declared.node.Node.{Node as NodeName};
ghost use Rattle.fm_edit.specs.CacheModel.{sight_of, seen_in, cached_live, open_in, present_in, cached_holder};
ghost use Rattle.fm_edit.specs.inner.CachedNodes.{IsSeenTask, cached_live_record, held_at, used_in};

use fm_know::record_facts::{is_done, is_open_at, spec_in, state_in, used_in};
use fm_net::node::Node;
use fm_records::ids::{JobId, MachineId, TaskId};
use fm_records::prefer::Prefer;
use fm_records::records::{JobReg, MachineRec, MachineReg, SpecReg, Spot, TaskRec};
use std::alloc::Global;
use std::collections::BTreeMap;

/// The records of jobs, tasks and machines, and of each task where the winner of its present attempt would run it.
#[derive(Drop)]
pub(crate) struct RecordCache {
    pub(crate) jobs: BTreeMap<JobId, JobReg>,
    pub(crate) tasks: BTreeMap<TaskId, TaskRec>,
    pub(crate) machines: BTreeMap<MachineId, MachineRec>,
    pub(crate) spots: BTreeMap<TaskId, Spot>,
}

/// What was seen of a task. Nodes are those of the job and the request that its spec names, and of the machine that the
/// winner of its present attempt names.
#[derive(Clone, Copy, Drop)]
pub(crate) struct CachedTask {
    pub(crate) job: Option<Node>,
    pub(crate) request: Option<Node>,
    pub(crate) spot: Option<Node>,
    /// The spec, if the task is live.
    pub(crate) live: Option<SpecReg>,
    /// The machine that holds it.
    pub(crate) holder: Option<MachineId>,
}

// The node of the job that the spec of the task's record names.
fn job_node(known: &TaskRec) -> Option<Node>
    ensures { result ≡ option_map (λ r. NodeName.Unscheduled r.job) known.now.0 }
{
    match &known.0.0 {
        Some(spec) => Some(Node::Unscheduled(spec.0.job)),
        None => None,
    }
}

// The node of the request of the spec of the task's record.
fn request_node(known: &TaskRec) -> Option<Node>
    ensures { result ≡ option_map (λ r. NodeName.Request r.request) known.now.0 }
{
    match &known.0.0 {
        Some(spec) => Some(Node::Request(spec.0.request)),
        None => None,
    }
}

// The node of the machine that the spot names.
fn spot_node(spot: &Option<Spot>) -> Option<Node>
    ensures { result ≡ option_map (λ p. NodeName.Machine p.machine) spot.now }
{
    match spot {
        Some(spot) => Some(Node::Machine(spot.machine)),
        None => None,
    }
}

impl CachedTask {
    /// The node of the machine that holds the task.
    pub(crate) fn holder_node(&self) -> Option<Node>
        ensures { result ≡ option_map NodeName.Machine self.now.holder }
    {
        match self.holder {
            Some(machine) => Some(Node::Machine(machine)),
            None => None,
        }
    }

    /// The machines that the task prefers, while it waits; else none.
    pub(crate) fn preferred(&self) -> Prefer
        ensures { (m : ℕ) → is_some (lookup nat_cmp m result)
            ≡ (passes (λ r. is_some (lookup nat_cmp m r.prefer)) self.now.live
            && not (passes (λ h. true) self.now.holder)) }
    {
        match self.live {
            Some(spec) if self.holder.is_none() => spec.prefer,
            _ => Prefer::default(),
        }
    }
}

impl RecordCache {
    /// Nothing is seen.
    pub(crate) fn new(alloc: Global) -> RecordCache
        ensures { seen_in result ≡ sight_of (table_of []) }
    {
        RecordCache {
            jobs: BTreeMap::new(alloc),
            tasks: BTreeMap::new(alloc),
            machines: BTreeMap::new(alloc),
            spots: BTreeMap::new(alloc),
        }
    }

    /// What is known of a table that is seen: its tasks are in memory, so they are fewer than 2^63.
    pub(crate) fn known(&self)
        ensures { (k : Table) → IsRising nat_cmp k.tasks → seen_in self.now ≡ sight_of k → length k.tasks < 2 ^ 63 }
    {
        let _count = self.tasks.len();
    }

    /// What was seen of the task: each of its records is looked up once. O(log n), as each reader here.
    pub(crate) fn task(&self, task: TaskId) -> CachedTask
        ensures { IsSeenTask (seen_in self.now) task result }
    {
        match self.tasks.get(&task) {
            Some(known) => self.task_of(known, &self.spot(task)),
            None => CachedTask {
                job: None,
                request: None,
                spot: spot_node(&self.spot(task)),
                live: None,
                holder: None,
            },
        }
    }

    // The same of a task with this record, of which the winner's spot is this.
    fn task_of(&self, known: &TaskRec, spot: &Option<Spot>) -> CachedTask
        ensures { (t : ℕ) → (seen_in self.now).task t ≡ Some known.now → (seen_in self.now).spot t ≡ spot.now
            → IsSeenTask (seen_in self.now) t result }
    {
        let live = self.live_of(known);
        let holder = self.held_at(live.is_some(), spot);
        CachedTask {
            job: job_node(known),
            request: request_node(known),
            spot: spot_node(spot),
            live,
            holder,
        }
    }

    // The spot that the winner of the task's present attempt names.
    fn spot(&self, task: TaskId) -> Option<Spot>
        ensures { result ≡ (seen_in self.now).spot task }
    {
        match self.spots.get(&task) {
            Some(spot) => Some(*spot),
            None => None,
        }
    }

    // The spec of the record, if its task is live.
    fn live_of(&self, known: &TaskRec) -> Option<SpecReg>
        ensures { result ≡ cached_live_record (seen_in self.now) known.now }
    {
        let spec = spec_in(known)?;
        if spec.withdrawn || is_done(known.1.0.phase) || !self.job_stands(spec.job) {
            return None;
        }
        Some(spec)
    }

    // The machine of the spot, if the task is live and the machine there to hold it.
    fn held_at(&self, is_live: bool, spot: &Option<Spot>) -> Option<MachineId>
        ensures { result ≡ held_at (seen_in self.now) is_live spot.now }
    {
        match spot {
            Some(place) if is_live && self.is_present(*place) => Some(place.machine),
            _ => None,
        }
    }

    /// The state of the machine, if it is open.
    pub(crate) fn open_state(&self, machine: MachineId) -> Option<MachineReg>
        ensures { result ≡ open_in (seen_in self.now) machine }
    {
        state_in(self.machines.get(&machine)?)
    }

    /// The use that the machine reported.
    pub(crate) fn used(&self, machine: MachineId) -> u32
        ensures { result ≡ used_in (seen_in self.now) machine }
    {
        match self.machines.get(&machine) {
            Some(record) => used_in(record),
            None => 0,
        }
    }

    // Whether the machine at the spot is open and at its present incarnation.
    fn is_present(&self, spot: Spot) -> bool
        ensures { result ≡ present_in (seen_in self.now) spot }
    {
        match self.machines.get(&spot.machine) {
            Some(record) => is_open_at(record, spot.incarnation),
            None => false,
        }
    }

    // Whether the job is known and not withdrawn.
    fn job_stands(&self, job: JobId) -> bool
        ensures { result ≡ passes (λ r. not r.withdrawn) ((seen_in self.now).job job) }
    {
        match self.jobs.get(&job) {
            Some(register) => !register.withdrawn,
            None => false,
        }
    }
}
