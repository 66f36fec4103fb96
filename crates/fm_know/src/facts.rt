//! The facts that knowledge tells: what is live, open and held, and what a machine has left. None allocates.
//!
//! Records may arrive in any order, such as a task before its job. So no fact is stored: each is computed from the
//! records when it is asked for, O(log n) for most. `load` and `spare` walk over all tasks.

ghost use Rattle.std.specs.Prelude.{◌≡◌, cond, option_map, sum_by, IfSome};
ghost use Rattle.fm_records.specs.Facts.{job_of, spec_of, progress_of, is_done, live_spec, is_live, job_stands, open_state, is_open, is_present, used_of, winner_of, won_spot, holder_of, held_tasks, holds, request_of, load_of, spare_of};
ghost use Rattle.fm_know.specs.Winners.{as_winner};
ghost use Rattle.fm_know.specs.inner.Records.{live_in, placed_in, holder_in};
ghost use Rattle.fm_know.specs.Limits.{JobWithin, SpecWithin, StateWithin};

use crate::knowledge::Knowledge;
use crate::record_facts::{
    attempt_in, is_done, is_open_at, request_in, spare_left, spec_in, state_in, used_in,
};
use fm_records::ids::{CoordId, JobId, MachineId, TaskId};
use fm_records::ops::Phase;
use fm_records::records::{JobReg, MachineReg, Progress, SpecReg, Spot, TaskRec};

/// The entry that wins an attempt of a task: who proposed it, and where it would run.
#[derive(Debug, Clone, Copy, PartialEq, Eq, Drop)]
pub struct Winner {
    pub coordinator: CoordId,
    pub machine: MachineId,
    pub incarnation: u64,
}

impl Winner {
    /// Where the task would run.
    pub fn spot(&self) -> Spot
        ensures { result ≡ record { machine = self.now.machine; incarnation = self.now.incarnation } }
    {
        Spot {
            machine: self.machine,
            incarnation: self.incarnation,
        }
    }
}

impl Knowledge {
    /// What is known of the job. O(log n), as every reader here that does not say otherwise.
    pub fn job(&self, job: JobId) -> Option<JobReg>
        ensures record { result ≡ job_of self.now job }
        ensures within { IfSome result JobWithin }
    {
        match self.jobs.get(&job) {
            Some(register) => Some(register.0),
            None => None,
        }
    }

    /// The greatest attempt and phase of the task that is known; attempt 0, pending, if none is.
    pub fn attempt(&self, task: TaskId) -> Progress
        ensures { result ≡ progress_of self.now task }
    {
        match self.tasks.get(&task) {
            Some(record) => record.1.0,
            None => Progress {
                attempt: 0,
                phase: Phase::Pending,
            },
        }
    }

    /// The spec of the task, live or not.
    pub fn spec(&self, task: TaskId) -> Option<SpecReg>
        ensures record { result ≡ spec_of self.now task }
        ensures within { IfSome result SpecWithin }
    {
        match self.tasks.get(&task) {
            Some(record) => spec_in(record),
            None => None,
        }
    }

    /// The spec of the task, if it is live: known and not withdrawn, of a job that is known and not withdrawn, and not
    /// done.
    pub fn live_spec(&self, task: TaskId) -> Option<SpecReg>
        ensures record { result ≡ live_spec self.now task }
        ensures within { IfSome result SpecWithin }
    {
        match self.tasks.get(&task) {
            Some(record) => live_in(self, record),
            None => None,
        }
    }

    /// Whether the task is live.
    pub fn is_live(&self, task: TaskId) -> bool
        ensures { result ≡ is_live self.now task }
    {
        self.live_spec(task).is_some()
    }

    /// The state of the machine, if it is open: known at the present incarnation, and up.
    pub fn open_state(&self, machine: MachineId) -> Option<MachineReg>
        ensures record { result ≡ open_state self.now machine }
        ensures within { IfSome result StateWithin }
    {
        match self.machines.get(&machine) {
            Some(record) => state_in(record),
            None => None,
        }
    }

    /// Whether the machine is open.
    pub fn is_open(&self, machine: MachineId) -> bool
        ensures { result ≡ is_open self.now machine }
    {
        self.open_state(machine).is_some()
    }

    /// Whether the machine of the spot is open, and the spot names its present incarnation. O(log n).
    pub fn is_present(&self, spot: Spot) -> bool
        ensures { result ≡ is_present self.now spot }
    {
        match self.machines.get(&spot.machine) {
            Some(record) => is_open_at(record, spot.incarnation),
            None => false,
        }
    }

    /// The entry that wins the attempt of the task: that of the least coordinator that has one.
    pub fn winner(&self, task: TaskId, attempt: u32) -> Option<Winner>
        ensures { result ≡ option_map as_winner (winner_of self.now task attempt) }
    {
        let entries = self.proposals.get(&(task, attempt))?;
        let (coordinator, spot) = entries.iter().next()?;
        Some(Winner {
            coordinator: *coordinator,
            machine: spot.0.machine,
            incarnation: spot.0.incarnation,
        })
    }

    /// The machine that holds the task: the task is live, and the winner of its present attempt names an open machine
    /// at its present incarnation.
    pub fn holder(&self, task: TaskId) -> Option<MachineId>
        ensures { result ≡ holder_of self.now task }
    {
        match self.tasks.get(&task) {
            Some(record) => self.holder_in(task, record),
            None => None,
        }
    }

    // The machine that holds the task with the record.
    fn holder_in(&self, task: TaskId, found: &TaskRec) -> Option<MachineId>
        ensures { result ≡ holder_in self.now task found.now }
    {
        if live_in(self, found).is_none() {
            return None;
        }
        self.placed_in(task, found)
    }

    // The machine that the winner of the record's attempt names, if that is open and at its present incarnation.
    fn placed_in(&self, task: TaskId, found: &TaskRec) -> Option<MachineId>
        ensures { result ≡ placed_in self.now task found.now }
    {
        let winner = self.winner(task, attempt_in(found))?;
        if self.is_present(winner.spot()) {
            Some(winner.machine)
        } else {
            None
        }
    }

    /// The load of an open machine: the greater of the reported use and the sum of the requests of the tasks that it
    /// holds. 0 of a machine that is not open. O(n log n) in the tasks that are known.
    pub fn load(&self, machine: MachineId) -> u128
        ensures { result ≡ cond (is_open self.now machine) (load_of self.now machine) 0 }
    {
        if !self.is_open(machine) {
            return 0;
        }
        let used = u128::from(self.used(machine));
        used.max(self.held_requests(machine))
    }

    /// What the load leaves of the bandwidth of an open machine; none if the load is greater, and none of a machine
    /// that is not open. As costly as `load`.
    pub fn spare(&self, machine: MachineId) -> Option<u32>
        ensures { result ≡ spare_of self.now machine }
    {
        let state = self.open_state(machine)?;
        spare_left(state.nic, self.load(machine))
    }

    // Whether the job is known and not withdrawn.
    fn job_stands(&self, job: JobId) -> bool
        ensures { result ≡ job_stands self.now job }
    {
        match self.jobs.get(&job) {
            Some(register) => !register.0.withdrawn,
            None => false,
        }
    }

    /// The use that the machine reported at its present incarnation; 0 if it reported none.
    pub fn used(&self, machine: MachineId) -> u32
        ensures { result ≡ used_of self.now machine }
    {
        match self.machines.get(&machine) {
            Some(record) => used_in(record),
            None => 0,
        }
    }

    // The sum of the requests of the tasks that the machine holds.
    fn held_requests(&self, machine: MachineId) -> u128
        ensures { result ≡ sum_by (λ e. request_of e.1.0) (held_tasks self.now machine) }
    {
        let mut sum = 0u128;
        for (task, record) in self.tasks.iter() {
            if self.holder(*task) == Some(machine) {
                sum += u128::from(request_in(record));
            }
        }
        sum
    }
}

// The spec of the record, if the task is live.
fn live_in(known: &Knowledge, task: &TaskRec) -> Option<SpecReg>
    ensures { result ≡ live_in known.now task.now }
{
    let spec = spec_in(task)?;
    if spec.withdrawn || !known.job_stands(spec.job) || is_done(task.1.0.phase) {
        return None;
    }
    Some(spec)
}
