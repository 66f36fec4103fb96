//! Seats: the right of one thread to call a node, with the list of its accepted calls.
//!
//! There are as many seats as the node was made with, and each is used by one thread at a time. So calls under a number
//! are all in one list, in order, and the lists can be compared with the history afterwards (`audit`).
ghost use Rattle.std.specs.Prelude.{◌≡◌, ℕ};

use fm_coord::entry::Entry;
use std::marker::{Brand, Model};
use std::sync::ledger::{Ledger, Share};

/// The name of a node: that of the ledger of its calls, and how many entries its history had at the start.
pub trait NodeName: Ledger {
    /// How many entries there were at the start.
    ghost base: { ℕ };
}

impl NodeName for Brand {
    ghost base = { 0 };
}

/// The right to call a node. Contracts see its number, and the entries of its accepted calls in order, each with the
/// answer that it got; so many of the node's calls are the seat's.
#[derive(Drop)]
pub struct Seat<L: NodeName> {
    pub(crate) number: u32,
    pub(crate) log: Vec<Entry>,
    pub(crate) share: Share<L>,
}

impl<L: NodeName> Model for Seat<L> {
    ghost use Rattle.std.specs.Prelude.{◌≡◌, length};
    ghost use Rattle.fm_fleet.specs.Seats.{SeatModel, seen_seat};

    ghost Value = { SeatModel };

    ghost view = { λ s. seen_seat s.number s.log.items };

    ghost invariant = { λ s. (s.share.parts ≡ 1) × (s.share.amount ≡ length s.log.items) };
}

impl<L: NodeName> Seat<L> {
    /// The number of the seat, from 1.
    pub fn number(&self) -> u32
        ensures { result ≡ self.now.number }
    {
        self.number
    }
}

/// The accepted calls of a seat, once its node is closed.
#[derive(Drop)]
pub struct SeatLog {
    pub seat: u32,
    pub entries: Vec<Entry>,
}
