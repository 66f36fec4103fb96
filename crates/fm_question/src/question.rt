//! Questions to one coordinator, about what it knows.
//!
//! A question changes nothing. Words of a command line and lines of a stream become questions, and `fm_query` answers
//! them.

use fm_records::ids::{JobId, MachineId, TaskId};

/// What a coordinator is asked.
#[derive(Debug, Clone, Copy, PartialEq, Eq, Drop)]
pub enum Question {
    /// The network of what it knows, in DIMACS lines.
    Graph,
    /// A least flow of that network, its cost first, in DIMACS lines.
    Solve,
    /// What a round would place and preempt: the plan of a least flow, a line for each place and each preempt.
    Plan,
    /// The winner of the present attempt of each task, a line each.
    Winners,
    /// The entries of its own that are to run no longer, a line each.
    Stops,
    /// Which deltas it keeps.
    End,
    /// Why the task waits or runs.
    Why(TaskId),
    /// The records that it knows, a line each.
    List(Listing),
    /// The next version, or attempt, of an operation on the subject.
    Next(Subject),
    /// How much it knows, and how long its history is, a line each.
    Size,
    /// The machines whose held tasks request more than their bandwidth, a line each, and the tasks that a relief preempts.
    Over,
}

/// Which records are listed.
#[derive(Debug, Clone, Copy, PartialEq, Eq, Drop)]
pub enum Listing {
    /// Jobs, then machines, then tasks.
    All,
    Jobs,
    Machines,
    Tasks,
    /// The live tasks that no machine holds.
    Waiting,
}

/// What an operation is about.
#[derive(Debug, Clone, Copy, PartialEq, Eq, Drop)]
pub enum Subject {
    Job(JobId),
    /// The state of a machine at an incarnation.
    Machine(MachineId, u64),
    /// The next attempt of a task.
    Task(TaskId),
}
