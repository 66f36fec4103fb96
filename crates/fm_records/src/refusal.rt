//! Refusals, with a number and a text each.

ghost use Rattle.std.specs.Prelude.{◌≡◌};
ghost use Rattle.fm_records.specs.Refusals.{refusal_number};
ghost use Rattle.fm_records.specs.declared.refusal.Refusal.TheVariants as refusal;

use crate::ops::Field;
use fm_lattice::join::OutOfMemory;
use std::alloc::{AllocError, AllocFailed};
use thiserror::Error;

/// Why a call was refused.
#[derive(Debug, Clone, Copy, PartialEq, Eq, Drop, Error)]
pub enum Refusal {
    /// A growth was refused.
    #[error("there is not enough memory")]
    OutOfMemory,
    /// The operation's first field that is out of its range.
    #[error("the operation's field {0} is out of its range")]
    BadOp(Field),
    /// The history has as many entries as its limit.
    #[error("the history is full")]
    HistoryFull,
    /// A cut from behind its end or to beyond the buffer's, or a trim below the floor or beyond the end.
    #[error("the buffer has no such interval")]
    BadInterval,
    /// A cut from below the floor, which it names.
    #[error("the buffer is trimmed up to {0}")]
    Trimmed(u64),
    /// Bytes that spell no packet, from the place on.
    #[error("the bytes are no packet: see byte {0}")]
    BadPacket(usize),
    /// The solver's flow did not pass its check.
    #[error("the flow is not certified")]
    Uncertified,
    /// No coordinator has the number.
    #[error("there is no coordinator of this number")]
    NoCoordinator,
    /// No such packet was cut.
    #[error("there is no such packet")]
    NoPacket,
    /// The inbox has as many packets as it takes.
    #[error("the inbox is full")]
    InboxFull,
    /// The inbox has no packet.
    #[error("the inbox is empty")]
    InboxEmpty,
    /// The histories fit into no order in which each packet is cut before it is merged.
    #[error("the logs cannot be gathered into one order")]
    Stuck,
    /// A seat that is missing, or whose list is not in the history; or the sender of a packet that is not awaited.
    #[error("seat {0} does not match")]
    NotMine(u32),
    /// The known version is the greatest that there is.
    #[error("there is no greater version")]
    VersionsSpent,
    /// The known attempt is the greatest that there is.
    #[error("there is no later attempt")]
    AttemptsSpent,
    /// The script breaks a rule at the step, counted from 1; at 0 as a whole.
    #[error("the script is wrong at step {0}")]
    BadScript(usize),
    /// The writer answered a fault or took nothing.
    #[error("the output could not be written")]
    WriteFault,
    /// The text is no network from the line on, counted from 1.
    #[error("the network is wrong at line {0}")]
    BadDimacs(usize),
}

impl Refusal {
    /// The number of the refusal, from 1 to 18.
    pub fn number(&self) -> u32
        ensures { result ≡ refusal_number self.now }
    {
        match self {
            Refusal::OutOfMemory => 1,
            Refusal::BadOp(_) => 2,
            Refusal::HistoryFull => 3,
            Refusal::BadInterval => 4,
            Refusal::Trimmed(_) => 5,
            Refusal::BadPacket(_) => 6,
            Refusal::Uncertified => 7,
            Refusal::NoCoordinator => 8,
            Refusal::NoPacket => 9,
            Refusal::InboxFull => 10,
            Refusal::InboxEmpty => 11,
            Refusal::Stuck => 12,
            Refusal::NotMine(_) => 13,
            Refusal::VersionsSpent => 14,
            Refusal::AttemptsSpent => 15,
            Refusal::BadScript(_) => 16,
            Refusal::WriteFault => 17,
            Refusal::BadDimacs(_) => 18,
        }
    }
}

impl From<AllocError> for Refusal {
    ghost from_gives = { λ _ e. e ≡ refusal.OutOfMemory };

    fn from(_: AllocError) -> Refusal {
        Refusal::OutOfMemory
    }
}

impl<T: Drop> From<AllocFailed<T>> for Refusal {
    ghost from_gives = { λ _ e. e ≡ refusal.OutOfMemory };

    fn from(_: AllocFailed<T>) -> Refusal {
        Refusal::OutOfMemory
    }
}

impl From<OutOfMemory> for Refusal {
    ghost from_gives = { λ _ e. e ≡ refusal.OutOfMemory };

    fn from(_: OutOfMemory) -> Refusal {
        Refusal::OutOfMemory
    }
}
