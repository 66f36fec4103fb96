//! Where a task is, and what it would take to run it.

use fm_net::node::Node;
use fm_records::ids::{MachineId, TaskId};

/// Of how many machines, the cheapest ones, a schedule is looked for as an example.
pub const SHOWN: usize = 5;

/// A machine to which a task has a way.
#[derive(Debug, Clone, Copy, PartialEq, Eq, Drop)]
pub struct Choice {
    pub machine: MachineId,
    /// What the cheaper way of the task to it costs: over its request, or over an arc of its own.
    pub cost: u32,
    /// How much more than a least schedule each schedule costs that runs the task there, at least.
    pub dearer: u128,
}

/// A task whose unit goes over another arc of its own than now: to its job, where it waits, to its request, or to a
/// machine that it prefers.
#[derive(Debug, Clone, Copy, PartialEq, Eq, Drop)]
pub struct Move {
    pub task: TaskId,
    pub to: Node,
}

/// A schedule that runs a task on a machine.
#[derive(Debug, Drop)]
pub struct Alternative {
    /// What it costs.
    pub cost: u128,
    /// The tasks that go over another arc of their own than in the schedule that was found, by id. One that stays on
    /// its request is not among them, even if a plan pairs it with another machine then.
    pub moves: Vec<Move>,
}

/// What an operator could tell of a machine.
#[derive(Debug, Clone, Copy, PartialEq, Eq, Drop)]
pub enum Change {
    /// One more slot.
    Slot,
    /// So much more bandwidth.
    Bandwidth(u32),
}

/// A change of one machine after which some least schedule runs a task that waits now.
#[derive(Debug, Clone, Copy, PartialEq, Eq, Drop)]
pub struct Remedy {
    /// The machine that changes.
    pub machine: MachineId,
    pub change: Change,
    /// A machine on which a least schedule runs the task then.
    pub place: MachineId,
    /// What that schedule costs.
    pub cost: u128,
}

/// What there is to choose for a live task that no machine holds.
#[derive(Debug, Drop)]
pub struct Choices {
    /// The bandwidth that it requests.
    pub request: u32,
    /// What it costs to leave it waiting.
    pub wait: u32,
    /// What each least schedule costs.
    pub least: u128,
    /// Whether the least schedule that was found leaves it waiting.
    pub waits: bool,
    /// How much more than a least schedule each schedule costs that leaves it waiting, at least.
    pub waiting: u128,
    /// The machines to which it has a way, the cheapest first.
    pub machines: Vec<Choice>,
    /// How many machines are known, open or not.
    pub known: usize,
    /// Up to which price of waiting, from `wait` on and for this task alone, the schedule that was found stays least;
    /// up to any if there is none.
    pub price: Option<u128>,
    /// For each of the first of the machines, `SHOWN` at most, a schedule that runs it there, if the one that was found
    /// leaves it waiting, and one was found.
    pub examples: Vec<Option<Alternative>>,
    /// Up to two changes of a machine after which some least schedule runs it, if the schedule that was found leaves it
    /// waiting.
    pub remedies: Vec<Remedy>,
}

/// Where a task is.
#[derive(Debug, Drop)]
pub enum Reasons {
    /// No spec of it is known.
    Unknown,
    /// It is withdrawn or done, or its job is withdrawn or not known.
    NotLive,
    /// The machine holds it.
    Held(MachineId),
    /// It is live, and no machine holds it.
    Free(Choices),
}
