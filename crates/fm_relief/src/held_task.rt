//! Tasks that machines hold, with what decides which of them is preempted first.

use fm_records::ids::TaskId;

/// A task that a machine holds.
#[derive(Debug, Clone, Copy, PartialEq, Eq, Drop)]
pub struct HeldTask {
    pub task: TaskId,
    /// Its present attempt.
    pub attempt: u32,
    /// The bandwidth that it requests.
    pub request: u32,
    /// What it costs to preempt it, by its job.
    pub price: u32,
}
