//! What a history is made of: each accepted call with its reply, so that a replay can be compared with what happened.
//!
//! Replies share what they hold with the caller and the coordinator: a packet, what was admitted, or what a view saw.

use fm_delta::packet::Packet;
use fm_know::knowledge::Knowledge;
use fm_lattice::shared::Shared;
use fm_records::ops::Op;
use fm_round::plan::{Admitted, Plan};

/// Which part of a coordinator's knowledge goes into a packet.
#[derive(Debug, Clone, Copy, PartialEq, Eq, Drop)]
pub enum Range {
    /// The join of the deltas from the first number, below the second, counted from 0.
    Interval(u64, u64),
    /// All that is known.
    Full,
}

/// A call of a coordinator.
#[derive(PartialEq, Drop)]
pub enum Call {
    /// Take the operation in.
    Tell(Op),
    /// Take the packet's value in.
    Merge(Packet),
    /// Return a packet of the range.
    Cut(Range),
    /// Drop the deltas below the number.
    Trim(u64),
    /// Show what is known.
    View,
    /// Admit the plan, and merge the operations of the accepted entries.
    Commit(Plan),
}

/// What the call returned.
#[derive(PartialEq, Drop)]
pub enum Reply {
    Nothing,
    /// The packet of a cut.
    Packet(Shared<Packet>),
    /// What was admitted of a plan.
    Admitted(Shared<Admitted>),
    /// The number of entries before a view, and what was known.
    Seen(usize, Shared<Knowledge>),
}

/// An accepted call: the number of the seat that made it, the call, and its reply.
#[derive(PartialEq, Drop)]
pub struct Entry {
    pub by: u32,
    pub call: Call,
    pub reply: Reply,
}
