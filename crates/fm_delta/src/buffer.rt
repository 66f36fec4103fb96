//! Buffers of deltas, so that a coordinator can send a peer what it lacks instead of all that it knows.
//!
//! Deltas are numbered from 0 in the order in which they came. `cut` joins those of an interval into a delta group
//! (Almeida, Shoker and Baquero, 2018), by divide and conquer, O(s log d) for d deltas with s entries. `trim` drops the
//! first deltas, and a later cut from below that floor is refused, since it would lack some of what it is asked for.

ghost use Rattle.std.specs.Prelude.{◌≡◌, ◌+◌, ◌≤◌, ◌<◌, ◌^◌, [], ◌∷◌, List, Ok, Err, None, if◌then◌else◌, map, drop, IsOk, IfOk, IfErr, OnOk, OnErr};
ghost use Rattle.std.specs.List.{slice_range};
ghost use Rattle.std.specs.VecDeque.{deque_len, deque_capacity};
ghost use Rattle.fm_records.specs.declared.ops.Op.{Op};
ghost use Rattle.fm_records.specs.Options.{or_else};
ghost use Rattle.fm_records.specs.Sets.{union};
ghost use Rattle.fm_records.specs.Know.{table_of};
ghost use Rattle.fm_delta.specs.Deltas.{end_of, with_delta, with_floor, between, joined_all, cut_fault, can_trim};
ghost use Rattle.fm_delta.specs.inner.JoinedDeltas.{IsJoinOf};

use fm_know::knowledge::Knowledge;
use fm_lattice::join::{Join, OutOfMemory};
use fm_records::refusal::Refusal;
use std::alloc::Global;
use std::collections::VecDeque;
use std::marker::Model;

/// Deltas in the order of their pushes, counted from 0. Those below the floor are dropped.
#[derive(Drop)]
pub struct Buffer {
    floor: u64,
    kept: VecDeque<Knowledge>,
}

impl Model for Buffer {
    ghost use Rattle.std.specs.Prelude.{◌+◌, ◌-◌, ◌<◌, ◌^◌, length};
    ghost use Rattle.std.specs.VecDeque.{deque_len, deque_capacity};
    ghost use Rattle.fm_delta.specs.Deltas.{WithRoom};

    ghost Value = { WithRoom };

    ghost view = { λ b. record {
      deltas = record { floor = b.floor; kept = b.kept.items };
      room = deque_capacity b.kept - deque_len b.kept;
    } };

    ghost invariant = { λ b. b.floor + length b.kept.items < 2 ^ 64 };
}

impl Buffer {
    /// A buffer with no deltas and its floor at 0. It allocates nothing.
    pub fn new(alloc: Global) -> Buffer
        ensures { result.deltas ≡ record { floor = 0; kept = [] } }
    {
        Buffer {
            floor: 0,
            kept: VecDeque::new(alloc),
        }
    }

    /// The first delta that is kept: those below it were dropped.
    pub fn floor(&self) -> u64
        ensures { result ≡ self.now.deltas.floor }
    {
        self.floor
    }

    /// How many deltas were pushed.
    pub fn end(&self) -> u64
        ensures { result ≡ end_of self.now.deltas }
    {
        self.floor + self.kept.len() as u64
    }

    /// Reserves the memory of as many pushes, none of which can then be refused. The deltas are unchanged.
    pub fn reserve(&mut self, additional: usize) -> Result<(), OutOfMemory>
        ensures deltas { self.new.deltas ≡ self.old.deltas }
        ensures ok { OnOk result (additional ≤ self.new.room) }
        ensures room { self.old.room ≤ self.new.room }
    {
        self.kept.reserve(additional)?;
        Ok(())
    }

    /// Adds the delta at the end, whose number must be below the greatest u64. With room left it is never refused. If
    /// memory runs out the deltas are unchanged.
    pub fn push(&mut self, delta: Knowledge) -> Result<(), OutOfMemory>
        requires { end_of self.old.deltas + 1 < 2 ^ 64 }
        ensures ok { OnOk result (self.new.deltas ≡ with_delta self.old.deltas delta) }
        ensures err { OnErr result (self.new.deltas ≡ self.old.deltas) }
        ensures succeeds { 1 ≤ self.old.room → IsOk result }
        ensures room { self.old.room ≤ self.new.room + 1 }
    {
        self.kept.push_back(delta)?;
        Ok(())
    }

    /// The join of the deltas from, .., to - 1. If each delta is the table of a set of operations, it is the table of
    /// their union. O(s log d) for d deltas with s entries in all. BadInterval if `from` is above `to` or `to` is
    /// above the end, else Trimmed if `from` is below the floor.
    pub fn cut(&self, from: u64, to: u64) -> Result<Knowledge, Refusal>
        ensures ok { IfOk result (λ k. k ≡ joined_all (between self.now.deltas from to)) }
        ensures union { (Ss : List (List Op)) → between self.now.deltas from to ≡ map table_of Ss
            → IfOk result (λ k. k ≡ table_of (union Ss)) }
        ensures within { IsOk result → cut_fault self.now.deltas from to ≡ None }
        ensures err { IfErr result (λ e. e ≡ or_else Refusal.OutOfMemory (cut_fault self.now.deltas from to)) }
    {
        if from > to || to > self.end() {
            return Err(Refusal::BadInterval);
        }
        if from < self.floor {
            return Err(Refusal::Trimmed(self.floor));
        }
        let first = (from - self.floor) as usize;
        let last = (to - self.floor) as usize;
        let group = joined_between(&self.kept, first, last)?;
        Ok(group)
    }

    /// Sets the floor, and drops the deltas below it. It allocates nothing, and O(s) for deltas with s entries that
    /// it drops. BadInterval if n is below the floor or above the end, and nothing has changed.
    pub fn trim(&mut self, n: u64) -> Result<(), Refusal>
        ensures answer { result ≡ (if can_trim self.old.deltas n then Ok tt else Err Refusal.BadInterval) }
        ensures ok { OnOk result (self.new.deltas ≡ with_floor self.old.deltas n) }
        ensures err { OnErr result (self.new.deltas ≡ self.old.deltas) }
        ensures room { self.old.room ≤ self.new.room }
    {
        if n < self.floor || n > self.end() {
            return Err(Refusal::BadInterval);
        }
        let_go(&mut self.kept, (n - self.floor) as usize);
        self.floor = n;
        Ok(())
    }
}

// Drops as many deltas in front.
fn let_go(deltas: &mut VecDeque<Knowledge>, count: usize)
    ensures items { deltas.new.items ≡ drop count deltas.old.items }
    ensures capacity { deque_capacity deltas.new ≡ deque_capacity deltas.old }
{
    for i in 0..count {
        let _ = deltas.pop_front();
    }
}

// The join of the deltas from, .., to - 1, by divide and conquer: each delta is copied as often as the count can be
// halved.
fn joined_between(
    deltas: &VecDeque<Knowledge>,
    from: usize,
    to: usize,
) -> Result<Knowledge, OutOfMemory>
    requires order { from ≤ to }
    requires within { to ≤ deque_len deltas.now }
    ensures { IfOk result (λ k. IsJoinOf k (slice_range deltas.now.items from to)) }
{
    if from == to {
        return Ok(Knowledge::empty(*deltas.allocator()));
    }
    if to - from == 1 {
        return copy_of(&deltas[from]);
    }
    let middle = from + (to - from) / 2;
    let left = joined_between(deltas, from, middle)?;
    let right = joined_between(deltas, middle, to)?;
    left.joined(&right)
}

// The delta again, as the join of itself alone.
fn copy_of(delta: &Knowledge) -> Result<Knowledge, OutOfMemory>
    ensures { IfOk result (λ k. IsJoinOf k (delta.now ∷ [])) }
{
    delta.known();
    delta.copy()
}
