//! What a world is run on.

use fm_coord::entry::Range;
use fm_delta::packet::Packet;
use fm_records::ops::Op;
use fm_records::refusal::Refusal;
use fm_round::plan::Plan;

/// What a step asks a coordinator for.
#[derive(Drop)]
pub enum Act {
    /// Take the operation in.
    Tell(Op),
    /// Cut a packet of the range.
    Cut(Range),
    /// Merge the packet with the number, counted from 0 in the order of cuts over all coordinators.
    Deliver(usize),
    /// Drop the deltas below the number.
    Trim(u64),
    /// Show what is known.
    View,
    /// Admit the plan, and merge what is admitted.
    Commit(Plan),
    /// Merge the packet, which another world cut.
    Take(Packet),
}

/// A step: the number of the coordinator, the number of the seat that asks, and what for.
#[derive(Drop)]
pub struct Step {
    pub at: u8,
    pub by: u32,
    pub act: Act,
}

/// Where a run stopped: the place of the refused step, counted from 0, and why it was refused.
#[derive(Debug, Clone, Copy, PartialEq, Eq, Drop)]
pub struct RunStop {
    pub place: usize,
    pub refusal: Refusal,
}
