//! The parts of plans, the answers to entries, and stops.

ghost use Rattle.std.specs.Prelude.{◌≡◌, ◌↔◌, IsTrue, IfOk};
ghost use Rattle.fm_round.specs.PlanEquality.{same_plan, same_admitted};

use crate::listed::Listed;
use fm_lattice::join::OutOfMemory;
use fm_records::ids::{MachineId, TaskId};
use fm_records::ops::Op;

/// An entry of a plan: run the task on the machine at its incarnation.
#[derive(Debug, Clone, Copy, PartialEq, Eq, Drop)]
pub struct Place {
    pub task: TaskId,
    pub machine: MachineId,
    pub incarnation: u64,
}

/// An entry of a plan: stop the task's attempt.
#[derive(Debug, Clone, Copy, PartialEq, Eq, Drop)]
pub struct Preempt {
    pub task: TaskId,
    pub attempt: u32,
}

/// The answer to an entry of a plan.
#[derive(Debug, Clone, Copy, PartialEq, Eq, Drop)]
pub enum Answer {
    /// The task is not live, or the machine, its incarnation, or the attempt is no longer the one that is named.
    Gone,
    /// Some machine holds the task.
    Held,
    /// There is no attempt after the present one.
    AttemptsSpent,
    /// Another coordinator's proposals would win against it.
    Contested,
    /// The machine holds as many tasks as it has slots, or more.
    NoSlot,
    /// The machine has not the bandwidth that the task requests.
    NoRoom,
    /// Its operations are added.
    Accepted,
}

/// An entry that the coordinator has to stop.
#[derive(Debug, Clone, Copy, PartialEq, Eq, Drop)]
pub struct Stop {
    pub task: TaskId,
    pub attempt: u32,
    pub machine: MachineId,
    pub incarnation: u64,
}

/// What a round asks for: tasks to run on machines, and attempts to run no longer.
#[derive(Debug, Drop)]
pub struct Plan {
    pub places: Listed<Place>,
    pub preempts: Listed<Preempt>,
}

impl Plan {
    /// The plan again, in memory of its own. O(n).
    pub fn copy(&self) -> Result<Plan, OutOfMemory>
        ensures { IfOk result (λ plan. plan ≡ self.now) }
    {
        Ok(Plan {
            places: self.places.copy()?,
            preempts: self.preempts.copy()?,
        })
    }
}

impl PartialEq for Plan {
    ghost use Rattle.fm_round.specs.PlanEquality.{same_plan};
    ghost use Rattle.fm_round.specs.laws.PlanEqualityLaws.{plan_equivalence};

    ghost eq = { same_plan };

    ghost laws = { plan_equivalence };

    /// Whether both have the same entries in the same order. O(n).
    fn eq(&self, other: &Self) -> bool
        ensures value { result ≡ same_plan self.now other.now }
        ensures exact { IsTrue result ↔ (self.now ≡ other.now) }
    {
        self.places == other.places && self.preempts == other.preempts
    }
}

/// What was admitted of a plan: the operations of the accepted entries in their order, and the answer to each entry,
/// those to places first.
#[derive(Debug, Drop)]
pub struct Admitted {
    pub ops: Listed<Op>,
    pub answers: Listed<Answer>,
}

impl PartialEq for Admitted {
    ghost use Rattle.fm_round.specs.PlanEquality.{same_admitted};
    ghost use Rattle.fm_round.specs.laws.PlanEqualityLaws.{admitted_equivalence};

    ghost eq = { same_admitted };

    ghost laws = { admitted_equivalence };

    /// Whether both have the same operations and the same answers, in the same order. O(n).
    fn eq(&self, other: &Self) -> bool
        ensures value { result ≡ same_admitted self.now other.now }
        ensures exact { IsTrue result ↔ (self.now ≡ other.now) }
    {
        self.ops == other.ops && self.answers == other.answers
    }
}
