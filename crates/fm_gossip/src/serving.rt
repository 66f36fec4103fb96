//! One coordinator's node, made, used by two threads, closed and audited, so that a thread can promise what it did.
//!
//! The lock forgets which coordinator it has. So the audit compares the history with what both seats kept, and number
//! and limit are compared with those of the coordinator that was passed.
ghost use Rattle.std.specs.Prelude.{◌≡◌, ◌<◌, ◌≤◌, List, [], Some, None, map, vec_len, vec_capacity, IsTrue, IfSome};
ghost use Rattle.fm_inbox.specs.Ports.{InboxModel};
ghost use Rattle.fm_records.specs.declared.refusal.Refusal.TheVariants.{OutOfMemory};
ghost use Rattle.fm_fleet.specs.Audits.{StandInOne};
ghost use Rattle.fm_fleet.specs.Seats.{AreNew, HasSeat};
ghost use Rattle.fm_gossip.specs.Served.{IsIntake, AreRounds, new_seat};
ghost use Rattle.fm_gossip.specs.inner.EndedMember.{IsEnded};
ghost use Rattle.fm_gossip.specs.Passing.{passed_in};
ghost use Rattle.fm_gossip.specs.inner.Used.{new_port, used_ports};
ghost use Rattle.fm_gossip.specs.FleetFaults.{may_stop};
ghost use Rattle.fm_gossip.specs.inner.EarlyEnds.{may_end};
ghost use Rattle.fm_gossip.specs.inner.Works.{IsDoneUnless};

use crate::early::{Early, first_of, refused_by};
use crate::intake::{Intake, Taken, take_in};
use crate::member_end::MemberEnd;
use crate::solver::{Ran, Rounds, run_rounds};
use crate::stop_signal::StopSignal;
use crate::work::Work;
use fm_coord::coordinator::Coordinator;
use fm_fleet::audit::audit;
use fm_fleet::closing::{Closed, close};
use fm_fleet::node::Node;
use fm_fleet::owned_port::OwnedPort;
use fm_fleet::round::Gate;
use fm_fleet::seat::{NodeName, Seat};
use fm_policy::keeper::NetKeeper;
use fm_records::ids::CoordId;
use fm_records::refusal::Refusal;
use std::alloc::Global;
use std::marker::Brand;
use std::snapshot::Snapshot;
use std::sync::Wait;
use std::sync::ledger::Blank;
use std::thread;
use std::thread::{Promise, Threads};

/// That a coordinator comes back, with its ports, which did what it was to do unless it ended early.
#[derive(Drop)]
pub(crate) struct Served<N: NetKeeper, G>(pub(crate) Snapshot<Work<N, G>>);

impl<N: NetKeeper, G> Promise<MemberEnd<N>> for Served<N, G> {
    ghost use Rattle.fm_gossip.specs.inner.Works.{IsDoneUnless};

    ghost kept_by = { λ p d. IsDoneUnless p.0.value d };
}

/// Does the work with a node whose name this call picks. If something is refused, the fleet is stopped; the coordinator
/// and the ports come back in any case.
pub(crate) fn serve_one<
    'x,
    N: NetKeeper + Send + Drop,
    G: Gate + Send + Drop,
    R: Threads + Wait + Sync,
>(rt: &'x R, alloc: Global, work: Work<N, G>, halt: &'x StopSignal) -> MemberEnd<N>
    ensures { IsDoneUnless work result }
{
    let done = serve::<Brand, N, G, R>(rt, alloc, Blank::new(2), work, halt);
    if done.early.is_some() {
        halt.stop(rt);
    }
    done
}

// Makes the node, has two threads use it, and closes it.
fn serve<
    'x,
    L: NodeName + Send + Sync,
    N: NetKeeper + Send + Drop,
    G: Gate + Send + Drop,
    R: Threads + Wait + Sync,
>(rt: &'x R, alloc: Global, blank: Blank, work: Work<N, G>, halt: &'x StopSignal) -> MemberEnd<N>
    requires name { blank.name ≡ L.name }
    requires parts { blank.parts ≡ L.parts }
    requires seats { 2 ≡ L.parts }
    requires base { 0 ≡ L.base }
    ensures { IsDoneUnless work result }
{
    let Work {
        coordinator,
        intake,
        gate,
        rounds,
    } = work;
    let number = coordinator.number();
    let limit = coordinator.limit();
    let mut room = Vec::new(alloc);
    if room.reserve(2).is_err() {
        return ended(coordinator, intake);
    }
    let (node, seats) = match Node::<N, L>::new(alloc, blank, coordinator, 2) {
        Ok(made) => made,
        Err(fault) => return ended(fault.coordinator, intake),
    };
    let (one, two) = two_of(seats);
    let used = by_two(rt, alloc, &node, one, two, intake, gate, rounds, halt);
    let Used {
        one,
        two,
        ports,
        early,
    } = used;
    room.push_reserved(one);
    room.push_reserved(two);
    let (coordinator, fault) = end(node, room, number, limit);
    MemberEnd {
        coordinator,
        ports,
        early: first_of(early, refused_by(fault)),
    }
}

// What is left if memory ran out before there were threads.
fn ended<N: NetKeeper + Drop>(coordinator: Coordinator<N>, intake: Intake) -> MemberEnd<N>
    ensures { result.early ≡ Some (Early.Refused OutOfMemory) }
{
    let Intake { ports, .. } = intake;
    MemberEnd {
        coordinator,
        ports,
        early: Some(Early::Refused(Refusal::OutOfMemory)),
    }
}

// The two seats of a new node.
fn two_of<L: NodeName>(mut seats: Vec<Seat<L>>) -> (Seat<L>, Seat<L>)
    requires { AreNew 2 seats.items }
    ensures { (result.0 ≡ new_seat 1) × (result.1 ≡ new_seat 2) }
{
    match (seats.pop(), seats.pop()) {
        (Some(two), Some(one)) => (one, two),
        _ => unreachable!(),
    }
}

// The two seats of a node when its threads ended, the ports of the first, and why one ended early, if one did.
#[derive(Drop)]
struct Used<L: NodeName> {
    one: Seat<L>,
    two: Seat<L>,
    ports: Vec<OwnedPort>,
    early: Option<Early>,
}

// A node, used by two threads: the intake is this one. If the other cannot be made, its rounds are tried here once the
// fleet is stopped: so its seat comes back.
fn by_two<
    'x,
    L: NodeName + Send + Sync,
    N: NetKeeper + Send + Drop,
    G: Gate + Send + Drop,
    R: Threads + Wait + Sync,
>(
    rt: &'x R,
    alloc: Global,
    node: &'x Node<N, L>,
    one: Seat<L>,
    two: Seat<L>,
    intake: Intake,
    gate: G,
    rounds: u32,
    halt: &'x StopSignal,
) -> Used<L>
    requires { intake.place < vec_len intake.ports }
    ensures intake { result.early ≡ None → IsIntake intake.tells.items intake.senders.items one result.one }
    ensures ports { result.early ≡ None → (bs : List InboxModel) → one.log ≡ []
        → map (λ d. d.port) intake.ports.items ≡ map new_port bs
        → map (λ d. d.port) result.ports.items ≡ used_ports intake.place 0 (passed_in result.one) bs }
    ensures rounds { result.early ≡ None → AreRounds L.base rounds two result.two }
    ensures numbers { (result.one.number ≡ one.number) × (result.two.number ≡ two.number) }
    ensures cause { IfSome result.early (λ early. IsTrue (may_end early)) }
{
    thread::scope(
        thread::scope_env(),
        rt,
        move |scope| -> Used<L>
            requires { intake.place < vec_len intake.ports }
            ensures intake { result.early ≡ None
                → IsIntake intake.tells.items intake.senders.items one result.one }
            ensures ports { result.early ≡ None → (bs : List InboxModel) → one.log ≡ []
                → map (λ d. d.port) intake.ports.items ≡ map new_port bs
                → map (λ d. d.port) result.ports.items ≡ used_ports intake.place 0 (passed_in result.one) bs }
            ensures rounds { result.early ≡ None → AreRounds L.base rounds two result.two }
            ensures numbers { (result.one.number ≡ one.number) × (result.two.number ≡ two.number) }
            ensures cause { IfSome result.early (λ early. IsTrue (may_end early)) }
        {
            let promise = Rounds {
                seat: Snapshot::of(&two),
                rounds,
            };
            let started = scope.spawn_with(
                promise,
                move || run_rounds(rt, alloc, node, two, gate, rounds, halt),
            );
            match started {
                Ok(handle) => {
                    let taken = take_in(rt, node, one, intake, halt);
                    both(taken, handle.join(rt))
                }
                Err(fault) => {
                    halt.stop(rt);
                    let rounds = fault.value;
                    unused(one, intake, rounds())
                }
            }
        },
    )
}

// What both threads left.
fn both<L: NodeName>(taken: Taken<L>, ran: Ran<L>) -> Used<L>
    ensures one { (result.one ≡ taken.seat) × (result.ports ≡ taken.ports) }
    ensures two { result.two ≡ ran.seat }
    ensures none { result.early ≡ None → (taken.early ≡ None) × (ran.early ≡ None) }
    ensures cause { IfSome taken.early (λ early. IsTrue (may_end early)) → IfSome ran.early (λ early. IsTrue (may_end early))
        → IfSome result.early (λ early. IsTrue (may_end early)) }
{
    Used {
        one: taken.seat,
        two: ran.seat,
        ports: taken.ports,
        early: first_of(taken.early, ran.early),
    }
}

// What is left if a thread could not be made.
fn unused<L: NodeName>(one: Seat<L>, intake: Intake, ran: Ran<L>) -> Used<L>
    ensures early { result.early ≡ Some (Early.Refused OutOfMemory) }
    ensures seats { (result.one ≡ one) × (result.two ≡ ran.seat) }
{
    let Intake { ports, .. } = intake;
    Used {
        one,
        two: ran.seat,
        ports,
        early: Some(Early::Refused(Refusal::OutOfMemory)),
    }
}

// Closes the node with both its seats, and audits it. The lock forgets which coordinator it holds, so its number and
// limit are looked at.
fn end<N: NetKeeper + Drop, L: NodeName>(
    node: Node<N, L>,
    seats: Vec<Seat<L>>,
    number: CoordId,
    limit: usize,
) -> (Coordinator<N>, Option<Refusal>)
    requires base { 0 ≡ L.base }
    requires parts { 2 ≡ node }
    requires seats { HasSeat 1 seats.items × HasSeat 2 seats.items }
    ensures ended { result.1 ≡ None → IsEnded number limit seats.items result.0.state }
    ensures cause { IfSome result.1 (λ refusal. IsTrue (may_stop refusal)) }
{
    match close(node, seats) {
        Ok(closed) => {
            let fault = fault_of(&closed, number, limit);
            let Closed { coordinator, .. } = closed;
            (coordinator, fault)
        }
        Err(_) => unreachable!(),
    }
}

// Why the audit of a closed node fails, if it does, or NotMine(0) if another coordinator was in it.
fn fault_of<N: NetKeeper>(closed: &Closed<N>, number: CoordId, limit: usize) -> Option<Refusal>
    ensures none { result ≡ None → (closed.now.coordinator.state.number ≡ number)
        × (closed.now.coordinator.state.limit ≡ limit)
        × StandInOne closed.now.coordinator.state closed.now.base closed.now.logs.items }
    ensures cause { IfSome result (λ refusal. IsTrue (may_stop refusal)) }
{
    if let Err(refusal) = audit(closed) {
        return Some(refusal);
    }
    let coordinator = &closed.coordinator;
    if coordinator.number().value() != number.value() || coordinator.limit() != limit {
        return Some(Refusal::NotMine(0));
    }
    None
}
