//! Live tasks and open machines, with what plans need of each, so that a plan can be made without the network.
//!
//! A network has an arc for each pair of a request and a machine with room for it, and a tally one entry for each task
//! and machine. It is made by one walk over each kind of record, with a guess for each look-up (`guide`): O(n) if ids
//! are spread evenly.

ghost use Rattle.std.specs.Prelude.{◌≡◌, ◌<◌, ◌+◌, ◌^◌, ℕ, not, option_map, IfOk, OnOk};
ghost use Rattle.std.specs.Ordering.{nat_cmp};
ghost use Rattle.fm_lattice.specs.Maps.{lookup};
ghost use Rattle.fm_records.specs.declared.records.Spot.{Spot as At};
ghost use Rattle.fm_records.specs.Facts.{is_present};
ghost use Rattle.fm_records.specs.Options.{and_then, or_else, only_if};
ghost use Rattle.fm_know.specs.RecordFacts.{open_state_in};
ghost use Rattle.fm_tally.specs.inner.Holdings.{requests_in, tasks_in, share_by, placed_by, names_open_machine, holding_nothing, nothing_on, AreHoldings};
ghost use Rattle.fm_tally.specs.Tallies.{task_at, TallyIsFor};
ghost use Rattle.fm_tally.specs.inner.TallyParts.{all_machines, live_task_of, task_by, requests_by, tasks_by, open_by};
ghost use Rattle.fm_tally.specs.Unfinished.{AreUnfinished};

use crate::guide::{Guide, upper};
use crate::holdings::{Holding, Holdings};
use crate::sorted::Sorted;
use crate::unfinished::{UnfinishedTask, unfinished_of};
use fm_know::knowledge::Knowledge;
use fm_know::record_facts::{spare_left, state_in, used_in};
use fm_lattice::join::{Join, OutOfMemory};
use fm_records::ids::{JobId, MachineId, TaskId};
use fm_records::records::{JobReg, MachineRec, Spot};
use std::alloc::Global;

/// What a plan needs of a live task.
#[derive(Debug, Clone, Copy, Drop)]
pub struct LiveTask {
    pub job: JobId,
    /// The bandwidth that it requests.
    pub request: u32,
    /// What it costs to leave the task waiting, or to preempt it if a machine holds it.
    pub price: u32,
    /// The machine that holds it.
    pub holder: Option<MachineId>,
    /// Whether it prefers machines.
    pub prefers: bool,
}

/// What a plan needs of an open machine.
#[derive(Debug, Clone, Copy, Drop)]
pub struct OpenMachine {
    pub slots: u32,
    /// The greater of the reported use and the sum of the requests of the tasks that it holds.
    pub load: u128,
    /// What the load leaves of its bandwidth; none if the load is greater.
    pub spare: Option<u32>,
    /// How many tasks it holds.
    pub held: u64,
    /// The sum of their requests.
    pub requests: u128,
}

/// The live tasks and the open machines, by id.
#[derive(Drop)]
pub struct Tally {
    pub tasks: Sorted<TaskId, LiveTask>,
    pub machines: Sorted<MachineId, OpenMachine>,
}

impl Tally {
    /// The tally of what is known. One walk each over the jobs, the tasks with the proposals, and the machines. For each task that is
    /// not done its job, and the machine that won it, are found in small tables: O(n) if ids are spread evenly, else O(n log n).
    pub fn of(alloc: Global, knowledge: &Knowledge) -> Result<Tally, OutOfMemory>
        ensures { IfOk result (TallyIsFor knowledge.now) }
    {
        let unfinished = unfinished_of(alloc, knowledge)?;
        Tally::with(alloc, knowledge, &unfinished)
    }

    /// As `of`, with the unfinished tasks of what is known, which the caller must pass: the tasks are not walked over.
    pub fn with(
        alloc: Global,
        knowledge: &Knowledge,
        unfinished: &Sorted<TaskId, UnfinishedTask>,
    ) -> Result<Tally, OutOfMemory>
        requires { AreUnfinished knowledge.now unfinished.now }
        ensures { IfOk result (TallyIsFor knowledge.now) }
    {
        let mut holdings = Holdings::none(alloc, knowledge)?;
        let tasks = tasks_of(alloc, knowledge, unfinished, &mut holdings)?;
        let machines = machines_of(alloc, knowledge, &holdings)?;
        Ok(Tally { tasks, machines })
    }
}

// The jobs that are known, also those that are withdrawn.
fn jobs_of(alloc: Global, knowledge: &Knowledge) -> Result<Sorted<JobId, JobReg>, OutOfMemory>
    ensures { IfOk result (λ jobs. jobs ≡ knowledge.now.jobs) }
{
    let mut found = Vec::new(alloc);
    for (job, register) in knowledge.jobs().iter() {
        found.push((*job, register.0))?;
    }
    Ok(Sorted::of(found))
}

// The live tasks. What machines hold is counted on the way.
fn tasks_of(
    alloc: Global,
    knowledge: &Knowledge,
    unfinished: &Sorted<TaskId, UnfinishedTask>,
    holdings: &mut Holdings,
) -> Result<Sorted<TaskId, LiveTask>, OutOfMemory>
    requires unfinished { AreUnfinished knowledge.now unfinished.now }
    requires nothing { (m : ℕ) → lookup nat_cmp m holdings.old.by_machine
        ≡ option_map nothing_on (lookup nat_cmp m knowledge.now.machines) }
    ensures tasks { IfOk result (λ tasks. (t : ℕ) → lookup nat_cmp t tasks ≡ task_at knowledge.now t) }
    ensures holdings { OnOk result (AreHoldings knowledge.now holdings.new) }
{
    knowledge.known();
    let jobs = jobs_of(alloc, knowledge)?;
    let guides = Guides::of(alloc, &jobs, holdings)?;
    let pairs = unfinished.pairs();
    let mut found = Vec::with_capacity(alloc, pairs.len())?;
    for (task, known) in pairs {
        if let Some(live) = live_task(known, guides.near(known), &jobs, holdings) {
            found.push((*task, live))?;
        }
    }
    Ok(Sorted::of(found))
}

// Where the job of a task, and the machine that won it, may stand among the others.
#[derive(Clone, Copy, Drop)]
struct Near {
    job: usize,
    machine: usize,
}

// What guesses that.
#[derive(Drop)]
struct Guides {
    jobs: Guide,
    machines: Guide,
}

impl Guides {
    // For these jobs, and the machines that are counted for.
    fn of(
        alloc: Global,
        jobs: &Sorted<JobId, JobReg>,
        holdings: &Holdings,
    ) -> Result<Guides, OutOfMemory> {
        let machines = Guide::of_machines(alloc, holdings.by_machine.pairs())?;
        Ok(Guides {
            jobs: Guide::of_jobs(alloc, jobs.pairs())?,
            machines,
        })
    }

    fn near(&self, task: &UnfinishedTask) -> Near {
        let machine = match &task.spot {
            Some(spot) => self.machines.guess(upper(spot.machine.value())),
            None => 0,
        };
        Near {
            job: self.jobs.guess(upper(task.job.value())),
            machine,
        }
    }
}

// What a plan needs of the task, if its job stands. It counts for the machine that holds it.
fn live_task(
    task: &UnfinishedTask,
    near: Near,
    jobs: &Sorted<JobId, JobReg>,
    holdings: &mut Holdings,
) -> Option<LiveTask>
    requires requests_fit { (m : ℕ) → requests_in holdings.old m + 2 ^ 32 < 2 ^ 128 }
    requires tasks_fit { (m : ℕ) → tasks_in holdings.old m + 1 < 2 ^ 64 }
    ensures live { result ≡ task_by jobs.now (and_then (placed_by holdings.old) task.now.spot) task.now }
    ensures requests { (m : ℕ) → requests_in holdings.new m ≡ requests_in holdings.old m + requests_by result m }
    ensures tasks { (m : ℕ) → tasks_in holdings.new m ≡ tasks_in holdings.old m + tasks_by result m }
    ensures small { (m : ℕ) → requests_by result m < 2 ^ 32 }
    ensures there { (s : At) → names_open_machine holdings.new s ≡ names_open_machine holdings.old s }
{
    let job = standing(jobs, near.job, task.job)?;
    let holder = hold(near.machine, task.spot, task.request, holdings);
    Some(held_task(task, job, holder))
}

// The machine of the spot, if that is open and at its present incarnation. A task with the request counts for it.
fn hold(near: usize, spot: Option<Spot>, request: u32, holdings: &mut Holdings) -> Option<MachineId>
    requires requests_fit { (m : ℕ) → requests_in holdings.old m + 2 ^ 32 < 2 ^ 128 }
    requires tasks_fit { (m : ℕ) → tasks_in holdings.old m + 1 < 2 ^ 64 }
    ensures placed { result ≡ and_then (placed_by holdings.old) spot }
    ensures requests { (m : ℕ) → requests_in holdings.new m ≡ requests_in holdings.old m + share_by result m request }
    ensures tasks { (m : ℕ) → tasks_in holdings.new m ≡ tasks_in holdings.old m + share_by result m 1 }
    ensures small { (m : ℕ) → share_by result m request < 2 ^ 32 }
    ensures there { (s : At) → names_open_machine holdings.new s ≡ names_open_machine holdings.old s }
{
    holdings.hold(near, spot?, request)
}

// What a plan needs of a live task of the job, which the machine holds.
fn held_task(task: &UnfinishedTask, job: JobReg, holder: Option<MachineId>) -> LiveTask
    ensures { result ≡ live_task_of task.now job holder }
{
    let price = match holder {
        Some(_) => job.preempt,
        None => job.wait,
    };
    LiveTask {
        job: task.job,
        request: task.request,
        price,
        holder,
        prefers: task.prefers,
    }
}

// The job, if it is known and not withdrawn.
fn standing(jobs: &Sorted<JobId, JobReg>, near: usize, job: JobId) -> Option<JobReg>
    ensures { result ≡ only_if (λ r. not r.withdrawn) (lookup nat_cmp job jobs.now) }
{
    let register = jobs.get_near(near, &job)?;
    if register.withdrawn {
        return None;
    }
    Some(register)
}

// The open machines.
fn machines_of(
    alloc: Global,
    knowledge: &Knowledge,
    holdings: &Holdings,
) -> Result<Sorted<MachineId, OpenMachine>, OutOfMemory>
    requires { AreHoldings knowledge.now holdings.now }
    ensures { IfOk result (λ machines. machines ≡ all_machines knowledge.now) }
{
    let mut found = Vec::new(alloc);
    let mut near = 0usize;
    for (machine, known) in knowledge.machines().iter() {
        let holding = holdings.of_machine(near, *machine);
        near = near.saturating_add(1);
        if let Some(open) = open_machine(known, holding) {
            found.push((*machine, open))?;
        }
    }
    Ok(Sorted::of(found))
}

// What a plan needs of the machine with the record, which holds so much, if it is open.
fn open_machine(known: &MachineRec, holding: Holding) -> Option<OpenMachine>
    ensures { result ≡ open_by known.now holding.requests holding.tasks }
{
    let state = state_in(known)?;
    let load = u128::from(used_in(known)).max(holding.requests);
    Some(OpenMachine {
        slots: state.slots,
        load,
        spare: spare_left(state.nic, load),
        held: holding.tasks,
        requests: holding.requests,
    })
}
