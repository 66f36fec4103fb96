//! Nodes: coordinators that threads share, each by a seat of its own.
//!
//! Calls of one coordinator must come one after another, so a lock is held for each call alone, and never while a plan
//! is made. What a seat keeps of a call, its copy and the place in its list, is allocated before the lock is taken. So
//! once the coordinator accepted a call, nothing can fail, and history and list agree.
ghost use Rattle.std.specs.Prelude.{◌≡◌, ◌<◌, ◌≤◌, ◌+◌, ◌++◌, ◌∷◌, [], length, vec_len, vec_capacity, IfOk, IfErr, OnOk, OnErr};
ghost use Rattle.fm_net.specs.Network.{net_of};
ghost use Rattle.fm_coord.specs.States.{history_entry};
ghost use Rattle.fm_coord.specs.Outputs.{reply_to};
ghost use Rattle.fm_tally.specs.Tallies.{TallyIsFor};
ghost use Rattle.fm_fleet.specs.Seats.{after_call, MayRefuse, IsPossibleAnswer, AreNew};
ghost use Rattle.fm_fleet.specs.inner.PlainCalls.{AnswersNothing};

use crate::locked_coordinator::LockedCoordinator;
use crate::owners::{another, listed};
use crate::seat::{NodeName, Seat, SeatLog};
use fm_coord::coordinator::Coordinator;
use fm_coord::entry::{Call, Entry, Range, Reply};
use fm_coord::output::CallOutput;
use fm_coord::shared::Shared;
use fm_coord::view::{TallyView, View};
use fm_delta::packet::Packet;
use fm_lattice::join::OutOfMemory;
use fm_policy::keeper::NetKeeper;
use fm_records::ops::Op;
use fm_records::refusal::Refusal;
use fm_round::plan::{Admitted, Plan};
use std::alloc::Global;
use std::marker::Model;
use std::sync::ledger::{Blank, Share};
use std::sync::{Mutex, Wait};

/// A coordinator behind a lock, which threads with a seat may call. Contracts see how many seats it has.
#[derive(Drop)]
pub struct Node<N: NetKeeper, L: NodeName> {
    pub(crate) desk: Mutex<LockedCoordinator<N, L>>,
    pub(crate) base: usize,
    pub(crate) count: u32,
    pub(crate) room: Vec<SeatLog>,
}

impl<N: NetKeeper, L: NodeName> Model for Node<N, L> {
    ghost use Rattle.std.specs.Prelude.{ℕ, ◌≡◌, ◌≤◌, vec_len, vec_capacity};

    ghost Value = { ℕ };

    ghost view = { λ n. n.count };

    ghost invariant = { λ n. (n.base ≡ L.base) × (n.count ≡ L.parts) × (n.count ≤ vec_capacity n.room)
        × (vec_len n.room ≡ 0) };
}

/// Why a node was not made, with what was passed.
#[derive(Drop)]
pub struct NewFault<N: NetKeeper> {
    pub refusal: Refusal,
    pub coordinator: Coordinator<N>,
    pub blank: Blank,
}

impl<N: NetKeeper, L: NodeName> Node<N, L> {
    /// A node of the coordinator, and its seats, of which there is at least one, numbered from 1. The caller must pass
    /// a blank ledger of as many parts, whose name this function's is, and that the name tells how many entries the
    /// history has. The room that closing takes is reserved. OutOfMemory, with the coordinator and the blank.
    pub fn new(
        alloc: Global,
        blank: Blank,
        coordinator: Coordinator<N>,
        count: u32,
    ) -> Result<(Node<N, L>, Vec<Seat<L>>), NewFault<N>>
        requires name { blank.name ≡ L.name }
        requires parts { blank.parts ≡ L.parts }
        requires seats { (count ≡ L.parts) × (0 < count) }
        requires base { length coordinator.state.history ≡ L.base }
        ensures ok { IfOk result (λ r. (r.0 ≡ count) × AreNew count r.1.items) }
        ensures err { IfErr result (λ fault. fault.refusal ≡ Refusal.OutOfMemory) }
        ensures back { IfErr result (λ fault. (fault.coordinator ≡ coordinator) × (fault.blank.name ≡ blank.name)
            × (fault.blank.parts ≡ blank.parts)) }
    {
        let mut room = Vec::new(alloc);
        let mut seats = Vec::new(alloc);
        if room.reserve(count as usize).is_err() || seats.reserve(count as usize).is_err() {
            return Err(NewFault {
                refusal: Refusal::OutOfMemory,
                coordinator,
                blank,
            });
        }
        let base = coordinator.history().len();
        let (calls, mut all) = blank.open::<L>();
        seat_all(alloc, &mut seats, &mut all, count);
        let desk = Mutex::new(LockedCoordinator {
            coordinator,
            calls,
            rest: all,
        });
        let node = Node {
            desk,
            base,
            count,
            room,
        };
        Ok((node, seats))
    }
}

// Splits a part off for each seat.
fn seat_all<L: NodeName>(alloc: Global, seats: &mut Vec<Seat<L>>, all: &mut Share<L>, count: u32)
    requires empty { seats.old.items ≡ [] }
    requires room { count ≤ vec_capacity seats.old }
    requires parts { all.old.parts ≡ count }
    requires amount { all.old.amount ≡ 0 }
    ensures made { AreNew count seats.new.items }
    ensures rest { (all.new.parts ≡ 0) × (all.new.amount ≡ 0) }
{
    for i in 0..count {
        let share = all.split_off(1, 0);
        seats.push_reserved(Seat {
            number: i + 1,
            log: Vec::new(alloc),
            share,
        });
    }
}

impl<N: NetKeeper, L: NodeName> Node<N, L> {
    /// Any call, as the coordinator's `call` by the seat's number, with the lock held for that call alone. Memory for
    /// the seat's list is reserved, and its copy of the call is shared, before the lock is taken, so nothing can fail
    /// afterwards. The coordinator has at least as many entries before it as there were at the node's start and are
    /// in the seat's list. Refused as that call, and with OutOfMemory; then the seat is unchanged.
    pub fn call<R: Wait>(
        &self,
        rt: &R,
        seat: &mut Seat<L>,
        mut call: Call,
    ) -> Result<CallOutput, Refusal>
        ensures ok { IfOk result (λ answer. seat.new ≡ after_call seat.old call (reply_to answer)) }
        ensures answer { IfOk result (λ answer. IsPossibleAnswer (L.base + length seat.old.log) call answer) }
        ensures cause { IfErr result (λ refusal. MayRefuse call refusal) }
        ensures err { OnErr result (seat.new ≡ seat.old) }
    {
        let made = reserved(&mut seat.log, &mut call)?;
        let Seat { number, log, share } = seat;
        let answer = self.desk.lock(rt).call(*number, call, share);
        note(rt, log, *number, made, &answer);
        answer
    }

    /// Tells an operation, as the coordinator's `tell`. Refused as that, and with OutOfMemory; then the seat is
    /// unchanged.
    pub fn tell<R: Wait>(&self, rt: &R, seat: &mut Seat<L>, op: Op) -> Result<(), Refusal>
        ensures ok { OnOk result (seat.new ≡ after_call seat.old (Call.Tell op) Reply.Nothing) }
        ensures cause { IfErr result (λ refusal. MayRefuse (Call.Tell op) refusal) }
        ensures err { OnErr result (seat.new ≡ seat.old) }
    {
        self.done(rt, seat, Call::Tell(op))
    }

    /// Merges a packet's value, as the coordinator's `merge`. Refused as that, and with OutOfMemory; then the seat is
    /// unchanged.
    pub fn merge<R: Wait>(&self, rt: &R, seat: &mut Seat<L>, packet: Packet) -> Result<(), Refusal>
        ensures ok { OnOk result (seat.new ≡ after_call seat.old (Call.Merge packet) Reply.Nothing) }
        ensures cause { IfErr result (λ refusal. MayRefuse (Call.Merge packet) refusal) }
        ensures err { OnErr result (seat.new ≡ seat.old) }
    {
        self.done(rt, seat, Call::Merge(packet))
    }

    /// Cuts a packet, as the coordinator's `cut`. Refused as that, and with OutOfMemory; then the seat is unchanged.
    pub fn cut<R: Wait>(
        &self,
        rt: &R,
        seat: &mut Seat<L>,
        range: Range,
    ) -> Result<Shared<Packet>, Refusal>
        ensures ok { IfOk result (λ packet. seat.new ≡ after_call seat.old (Call.Cut range) (Reply.Packet packet)) }
        ensures cause { IfErr result (λ refusal. MayRefuse (Call.Cut range) refusal) }
        ensures err { OnErr result (seat.new ≡ seat.old) }
    {
        match self.call(rt, seat, Call::Cut(range)) {
            Ok(CallOutput::Packet(packet)) => Ok(packet),
            Ok(_) => unreachable!(),
            Err(refusal) => Err(refusal),
        }
    }

    /// Drops the deltas below n, as the coordinator's `trim`. Refused as that, and with OutOfMemory; then the seat is
    /// unchanged.
    pub fn trim<R: Wait>(&self, rt: &R, seat: &mut Seat<L>, n: u64) -> Result<(), Refusal>
        ensures ok { OnOk result (seat.new ≡ after_call seat.old (Call.Trim n) Reply.Nothing) }
        ensures cause { IfErr result (λ refusal. MayRefuse (Call.Trim n) refusal) }
        ensures err { OnErr result (seat.new ≡ seat.old) }
    {
        self.done(rt, seat, Call::Trim(n))
    }

    /// What is known, as the coordinator's `view`. There are at least as many entries before it as there were at the
    /// node's start and are in the seat's list, and the network is that of the knowledge. Refused as that, and with
    /// OutOfMemory; then the seat is unchanged.
    pub fn view<R: Wait>(&self, rt: &R, seat: &mut Seat<L>) -> Result<View, Refusal>
        ensures ok { IfOk result (λ view. seat.new
            ≡ after_call seat.old Call.View (Reply.Seen view.at view.knowledge)) }
        ensures later { IfOk result (λ view. L.base + length seat.old.log ≤ view.at) }
        ensures network { IfOk result (λ view. view.network ≡ net_of view.knowledge) }
        ensures cause { IfErr result (λ refusal. MayRefuse Call.View refusal) }
        ensures err { OnErr result (seat.new ≡ seat.old) }
    {
        match self.call(rt, seat, Call::View) {
            Ok(CallOutput::View(view)) => Ok(view),
            Ok(_) => unreachable!(),
            Err(refusal) => Err(refusal),
        }
    }

    /// As `view`, with the tally in place of the network, as the coordinator's `see`. Refused as that, and with
    /// OutOfMemory; then the seat is unchanged.
    pub fn see<R: Wait>(&self, rt: &R, seat: &mut Seat<L>) -> Result<TallyView, Refusal>
        ensures ok { IfOk result (λ sight. seat.new
            ≡ after_call seat.old Call.View (Reply.Seen sight.at sight.knowledge)) }
        ensures tally { IfOk result (λ sight. TallyIsFor sight.knowledge sight.tally) }
        ensures later { IfOk result (λ sight. L.base + length seat.old.log ≤ sight.at) }
        ensures cause { IfErr result (λ refusal. MayRefuse Call.View refusal) }
        ensures err { OnErr result (seat.new ≡ seat.old) }
    {
        if seat.log.reserve(1).is_err() {
            return Err(Refusal::OutOfMemory);
        }
        let Seat { number, log, share } = seat;
        let by = *number;
        let sight = match self.desk.lock(rt).see(by, share) {
            Ok(sight) => sight,
            Err(refusal) => return Err(refusal),
        };
        log.push_reserved(Entry {
            by,
            call: Call::View,
            reply: Reply::Seen(sight.at, another(rt, &sight.knowledge)),
        });
        Ok(sight)
    }

    /// Admits a plan and merges what is admitted, as the coordinator's `commit`. Refused as that, and with
    /// OutOfMemory; then the seat is unchanged.
    pub fn commit<R: Wait>(
        &self,
        rt: &R,
        seat: &mut Seat<L>,
        plan: Plan,
    ) -> Result<Shared<Admitted>, Refusal>
        ensures ok { IfOk result (λ admitted. seat.new
            ≡ after_call seat.old (Call.Commit plan) (Reply.Admitted admitted)) }
        ensures cause { IfErr result (λ refusal. MayRefuse (Call.Commit plan) refusal) }
        ensures err { OnErr result (seat.new ≡ seat.old) }
    {
        match self.call(rt, seat, Call::Commit(plan)) {
            Ok(CallOutput::Admitted(admitted)) => Ok(admitted),
            Ok(_) => unreachable!(),
            Err(refusal) => Err(refusal),
        }
    }

    // A call that returns nothing.
    fn done<R: Wait>(&self, rt: &R, seat: &mut Seat<L>, call: Call) -> Result<(), Refusal>
        requires { AnswersNothing call }
        ensures ok { OnOk result (seat.new ≡ after_call seat.old call Reply.Nothing) }
        ensures cause { IfErr result (λ refusal. MayRefuse call refusal) }
        ensures err { OnErr result (seat.new ≡ seat.old) }
    {
        match self.call(rt, seat, call) {
            Ok(_) => Ok(()),
            Err(refusal) => Err(refusal),
        }
    }
}

// Room in the list for one entry, and the call's copy for it. If memory runs out, neither has changed.
fn reserved(log: &mut Vec<Entry>, call: &mut Call) -> Result<Call, OutOfMemory>
    ensures made { IfOk result (λ made. made ≡ call.old) }
    ensures room { OnOk result (vec_len log.new < vec_capacity log.new) }
    ensures same_log { log.new.items ≡ log.old.items }
    ensures same_call { call.new ≡ call.old }
{
    log.reserve(1)?;
    call.share()
}

// Lists the call with what answered it, unless it was refused.
fn note<R: Wait>(
    rt: &R,
    log: &mut Vec<Entry>,
    seat: u32,
    made: Call,
    answer: &Result<CallOutput, Refusal>,
)
    requires room { vec_len log.old < vec_capacity log.old }
    ensures ok { IfOk answer.now (λ answer. log.new.items
        ≡ log.old.items ++ history_entry seat made (reply_to answer) ∷ []) }
    ensures err { OnErr answer.now (log.new.items ≡ log.old.items) }
{
    if let Ok(answer) = answer {
        log.push_reserved(Entry {
            by: seat,
            call: made,
            reply: listed(rt, answer),
        });
    }
}
