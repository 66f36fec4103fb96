//! The ways of tasks, into which a flow decomposes (Ford and Fulkerson, 1962).

use fm_records::ids::{JobId, MachineId};

/// Where the unit of a task goes from the task to the sink.
#[derive(Debug, Clone, Copy, PartialEq, Eq, Drop)]
pub enum Way {
    /// Over its job: the task waits, or is preempted.
    ToJob(JobId),
    /// Over its request and a machine.
    ByRequest(u32, MachineId),
    /// Over a machine alone: one that holds the task or that it prefers.
    Straight(MachineId),
}
