//! A script as data: the coordinators that there are, and what happens at each of them in turn.

use crate::names::Names;
use fm_coord::entry::Range;
use fm_records::ids::CoordId;
use fm_records::ops::Op;
use fm_share::share::Share;

/// What a step does at its coordinator.
#[derive(Debug, Clone, Copy, PartialEq, Eq, Drop)]
pub enum ScriptAct {
    /// The coordinator is told an operation, whose ranges are not yet checked.
    Tell(Op),
    /// It cuts a packet of the range.
    Cut(Range),
    /// It takes in the packet that was cut as the one with the number, counted from 0. If no earlier step cuts a packet
    /// of the name, the number is how many were cut: there is no such packet then.
    Deliver(usize),
    /// It lets the deltas below the number go.
    Trim(u64),
    /// It looks at what it knows, and commits what the round is for.
    Round(RoundKind),
}

/// What a round commits.
#[derive(Debug, Clone, Copy, PartialEq, Eq, Drop)]
pub enum RoundKind {
    /// Its share of the plan of a least flow of what is known.
    Share(Share),
    /// The relief of all machines whose held tasks request more than their bandwidth: preempts alone.
    Relief,
}

/// One step of a script.
#[derive(Debug, Clone, Copy, PartialEq, Eq, Drop)]
pub struct ScriptStep {
    /// The number of the coordinator, which need not be one of the script's.
    pub at: u8,
    pub act: ScriptAct,
}

/// A script that has been read.
#[derive(Debug, Drop)]
pub struct Script {
    /// The numbers of the coordinators, as listed.
    pub coordinators: Vec<CoordId>,
    /// The names of the packets, in the order of their cuts.
    pub names: Names,
    pub steps: Vec<ScriptStep>,
}

/// A step of a script that tells a coordinator an operation.
#[derive(Debug, Clone, Copy, PartialEq, Eq, Drop)]
pub struct Tell {
    /// The number of the coordinator, which need not be one of the script's.
    pub at: u8,
    /// The operation, whose ranges are not yet checked.
    pub op: Op,
}

/// A script of tells alone that has been read.
#[derive(Debug, Drop)]
pub struct Tells {
    /// The numbers of the coordinators, as listed.
    pub coordinators: Vec<CoordId>,
    pub tells: Vec<Tell>,
}
