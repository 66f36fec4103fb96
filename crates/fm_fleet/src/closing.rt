//! Closing a node: its coordinator, and the list of each seat, once all seats are back and nobody can call it any more.
//!
//! Each seat has a part of the ledger of calls. Joined, the parts account for all calls, so the history has grown by as
//! many entries as the lists have together. Memory for it is reserved when the node is made, so closing allocates
//! nothing.
ghost use Rattle.std.specs.Prelude.{◌≡◌, ◌<◌, ◌≤◌, ◌+◌, ℕ, length, vec_len, vec_capacity, slice_get, Some, map, sum_by, MatchOption, IfOk, IfErr};
ghost use Rattle.std.specs.List.Sorted.{IsPermutation};
ghost use Rattle.fm_records.specs.declared.refusal.Refusal.TheVariants.{NotMine};
ghost use Rattle.fm_fleet.specs.Seats.{SeatModel, HasSeat, IsMissing, seat_of, length_of, AreNumbered};

use crate::locked_coordinator::LockedCoordinator;
use crate::node::Node;
use crate::seat::{NodeName, Seat, SeatLog};
use fm_coord::coordinator::Coordinator;
use fm_policy::keeper::NetKeeper;
use fm_records::refusal::Refusal;
use std::sync::ledger::Share;

/// What is left of a node: its coordinator, how many entries the history had at the start, and the list of each seat.
#[derive(Drop)]
pub struct Closed<N: NetKeeper> {
    pub coordinator: Coordinator<N>,
    pub base: usize,
    pub logs: Vec<SeatLog>,
}

/// Why a node was not closed, with what was passed.
#[derive(Drop)]
pub struct NotClosed<N: NetKeeper, L: NodeName> {
    pub refusal: Refusal,
    pub node: Node<N, L>,
    pub seats: Vec<Seat<L>>,
}

/// Closes a node with all its seats, and returns their lists, by the numbers of the seats. The history has grown by
/// as many entries as are in the lists. It allocates nothing. O(n^2) in the seats. NotMine with the least seat that is
/// missing, with the node and the seats.
pub fn close<N: NetKeeper, L: NodeName>(
    node: Node<N, L>,
    seats: Vec<Seat<L>>,
) -> Result<Closed<N>, NotClosed<N, L>>
    ensures base { IfOk result (λ closed. closed.base ≡ L.base) }
    ensures counted { IfOk result (λ closed. length closed.coordinator.state.history
        ≡ closed.base + sum_by length_of closed.logs.items) }
    ensures logs { IfOk result (λ closed. IsPermutation seats.items (map seat_of closed.logs.items)) }
    ensures numbered { IfOk result (λ closed. AreNumbered closed.logs.items × (vec_len closed.logs ≡ node)) }
    ensures err { IfErr result (λ kept. (k : ℕ) × (kept.refusal ≡ NotMine k) × IsMissing node seats.items k) }
    ensures back { IfErr result (λ kept. (kept.node ≡ node) × (kept.seats ≡ seats)) }
{
    if let Some(seat) = missing(seats.as_slice(), node.count) {
        return Err(NotClosed {
            refusal: Refusal::NotMine(seat),
            node,
            seats,
        });
    }
    let Node {
        desk,
        base,
        count,
        room,
    } = node;
    let LockedCoordinator {
        coordinator,
        calls: mut book,
        rest,
    } = desk.into_inner();
    let (logs, mut all) = take_in(seats, count, room, rest);
    book.audit(&mut all);
    Ok(Closed {
        coordinator,
        base,
        logs,
    })
}

// Where the seat of this number stands.
fn find<L: NodeName>(seats: &[Seat<L>], number: u32) -> Option<usize>
    ensures { MatchOption result (¬ (HasSeat number seats.now))
        (λ i. (s : SeatModel) × (slice_get seats.now i ≡ Some s) × (s.number ≡ number)) }
{
    for i in 0..seats.len() {
        if seats[i].number() == number {
            return Some(i);
        }
    }
    None
}

// The least number that no seat has.
fn missing<L: NodeName>(seats: &[Seat<L>], count: u32) -> Option<u32>
    ensures { MatchOption result ((k : ℕ) → k < count → HasSeat (k + 1) seats.now) (λ k. IsMissing count seats.now k) }
{
    for k in 0..count {
        match find(seats, k + 1) {
            Some(_) => {}
            None => return Some(k + 1),
        }
    }
    None
}

// Joins the seats by number, one at a time; the joined share stands for those so far.
fn take_in<L: NodeName>(
    mut seats: Vec<Seat<L>>,
    count: u32,
    mut logs: Vec<SeatLog>,
    mut joined: Share<L>,
) -> (Vec<SeatLog>, Share<L>)
    requires all { (k : ℕ) → k < count → HasSeat (k + 1) seats.items }
    requires count { count ≡ L.parts }
    requires room { (vec_len logs ≡ 0) × (count ≤ vec_capacity logs) }
    requires parts { (joined.parts ≡ 0) × (joined.amount ≡ 0) }
    ensures logs { IsPermutation seats.items (map seat_of result.0.items) }
    ensures numbered { AreNumbered result.0.items × (vec_len result.0 ≡ count) }
    ensures joined { (result.1.parts ≡ L.parts) × (result.1.amount ≡ sum_by length_of result.0.items) }
{
    for k in 0..count {
        let at = match find(seats.as_slice(), k + 1) {
            Some(at) => at,
            None => unreachable!(),
        };
        let Seat { number, log, share } = seats.swap_remove(at);
        joined.merge(share);
        logs.push_reserved(SeatLog {
            seat: number,
            entries: log,
        });
    }
    // A seat more would have a part more than there are.
    match seats.pop() {
        None => {}
        Some(
            Seat {
                number: _,
                log: _,
                share,
            },
        ) => {
            joined.merge(share);
            unreachable!();
        }
    }
    (logs, joined)
}
