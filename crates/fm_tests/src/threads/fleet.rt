//! Nodes with their seats, rounds, and audits.

ghost use Rattle.std.specs.Prelude.{◌≡◌, length, IfOk};

use crate::coordinators::{coordinator_id, three_told};
use crate::samples::{JOB, PROGRESS, PROPOSAL, TASK};
use crate::threads::waiting::is_set_soon;
use crate::told::packet_from;
use fm_coord::coordinator::Coordinator;
use fm_coord::entry::{Call, Entry, Range, Reply};
use fm_fleet::audit::audit;
use fm_fleet::closing::{Closed, close};
use fm_fleet::node::Node;
use fm_fleet::round::{Gate, NoGate, run_round, run_share_round};
use fm_fleet::seat::{NodeName, Seat, SeatLog};
use fm_policy::rebuilder::Rebuilder;
use fm_records::ids::JobId;
use fm_records::ops::{Field, Op, Phase};
use fm_records::refusal::Refusal;
use fm_round::plan::Answer;
use fm_share::share::Share;
use fm_share::writers::Writers;
use std::alloc::Global;
use std::marker::Brand;
use std::sync::Wait;
use std::sync::atomic::{AtomicBool, Ordering};
use std::sync::ledger::Blank;
use std::test::Fail;
use std::thread;
use std::thread::Threads;

fn is(fact: bool, otherwise: &'static str) -> Result<(), Fail> {
    if fact { Ok(()) } else { Err(otherwise.into()) }
}

// A coordinator that was told of a second task too, whose spec another writer wrote.
fn four_told(alloc: Global) -> Result<Coordinator<Rebuilder>, Fail> {
    let mut coordinator = three_told(alloc)?;
    coordinator.tell(0, TASK.id(18).writer(2).op())?;
    Ok(coordinator)
}

// What a test does with a new node and its two seats.
#[derive(Drop)]
enum Scene {
    CallsInTurn,
    TwoThreads,
    MergeWhileHeld,
    NothingHeld,
    ShareOfAnother,
}

fn play<L: NodeName + Send + Sync, R: Threads + Wait + Sync>(
    rt: &R,
    alloc: Global,
    blank: Blank,
    coordinator: Coordinator<Rebuilder>,
    scene: Scene,
) -> Result<(), Fail>
    requires name { blank.name ≡ L.name }
    requires parts { blank.parts ≡ L.parts }
    requires seats { 2 ≡ L.parts }
    requires base { length coordinator.state.history ≡ L.base }
{
    let Ok((node, mut seats)) = Node::<Rebuilder, L>::new(alloc, blank, coordinator, 2) else {
        return Err("no node".into());
    };
    let (Some(two), Some(one)) = (seats.pop(), seats.pop()) else {
        return Err("no seats".into());
    };
    match scene {
        Scene::CallsInTurn => calls_in_turn(rt, alloc, node, one, two),
        Scene::TwoThreads => two_threads(rt, alloc, node, one, two),
        Scene::MergeWhileHeld => merge_while_held(rt, alloc, &node, one, two),
        Scene::NothingHeld => nothing_held(rt, alloc, &node, one),
        Scene::ShareOfAnother => share_of_another(rt, alloc, &node, one),
    }
}

// Plays under a name that this call picks.
fn picked<R: Threads + Wait + Sync>(
    rt: &R,
    alloc: Global,
    coordinator: Coordinator<Rebuilder>,
    scene: Scene,
) -> Result<(), Fail> {
    play::<Brand, R>(rt, alloc, Blank::new(2), coordinator, scene)
}

// Functions that may be refused hold few values there: a proof considers what is dropped at each refusal.

// What a wait beyond its range is answered, what a cut below the floor, and the number of the first packet.
fn asked_in_turn<L: NodeName, R: Wait>(
    rt: &R,
    node: &Node<Rebuilder, L>,
    seat: &mut Seat<L>,
) -> Result<(Option<Refusal>, Option<Refusal>, u64), Refusal> {
    let beyond = node.tell(rt, seat, JOB.id(2).wait(u32::MAX).op()).err();
    node.trim(rt, seat, 3)?;
    let trimmed = node.cut(rt, seat, Range::Interval(0, 1)).err();
    let packet = node.cut(rt, seat, Range::Full)?;
    Ok((beyond, trimmed, packet.get().number))
}

// Asks as above, and returns the seat if all is answered as it should be.
fn answered_in_turn<L: NodeName, R: Wait>(
    rt: &R,
    node: &Node<Rebuilder, L>,
    mut seat: Seat<L>,
) -> Result<Seat<L>, Fail> {
    let answers = asked_in_turn(rt, node, &mut seat)?;
    let beyond = Some(Refusal::BadOp(Field::Wait));
    let trimmed = Some(Refusal::Trimmed(3));
    if answers != (beyond, trimmed, 1) {
        return Err("a wait beyond its range, a cut below the floor, a first packet".into());
    }
    Ok(seat)
}

// The node and the seats, if it is not closed without the first one.
fn refused_without<L: NodeName>(
    node: Node<Rebuilder, L>,
    seats: Vec<Seat<L>>,
) -> Result<(Node<Rebuilder, L>, Vec<Seat<L>>), Fail> {
    match close(node, seats) {
        Ok(_) => Err("closed without a seat".into()),
        Err(kept) => {
            is(kept.refusal == Refusal::NotMine(1), "seat 1 is missing")?;
            Ok((kept.node, kept.seats))
        }
    }
}

fn one_seat<L: NodeName>(alloc: Global, seat: Seat<L>) -> Result<Vec<Seat<L>>, Fail> {
    let mut seats = Vec::new(alloc);
    seats.push(seat)?;
    Ok(seats)
}

// The closed node, if all its seats are there.
fn closed_with<L: NodeName>(
    node: Node<Rebuilder, L>,
    mut seats: Vec<Seat<L>>,
    last: Seat<L>,
) -> Result<Closed<Rebuilder>, Fail> {
    seats.push(last)?;
    match close(node, seats) {
        Ok(closed) => Ok(closed),
        Err(_) => Err("all seats are there".into()),
    }
}

fn calls_in_turn<L: NodeName, R: Wait>(
    rt: &R,
    alloc: Global,
    node: Node<Rebuilder, L>,
    one: Seat<L>,
    two: Seat<L>,
) -> Result<(), Fail> {
    let one = answered_in_turn(rt, &node, one)?;
    let (node, seats) = refused_without(node, one_seat(alloc, two)?)?;
    let closed = closed_with(node, seats, one)?;
    is(counts(&closed) == (3, 5, 2), "two entries since the start")
}

// The base, the entries, and those of the first seat, if the audit finds no fault.
fn counts(closed: &Closed<Rebuilder>) -> (usize, usize, usize) {
    match (audit(closed), closed.logs.first()) {
        (Ok(()), Some(log)) => (
            closed.base,
            closed.coordinator.history().len(),
            log.entries.len(),
        ),
        _ => (0, 0, 0),
    }
}

// Tells of jobs with the next 100 ids, and looks whether they are seen.
fn tell_jobs<L: NodeName, R: Wait>(
    rt: &R,
    node: &Node<Rebuilder, L>,
    mut seat: Seat<L>,
    first: u64,
) -> Result<(Seat<L>, bool), Refusal> {
    for i in 0..100u64 {
        let id = u128::from(first) + u128::from(i);
        node.tell(rt, &mut seat, JOB.id(id).op())?;
    }
    let view = node.view(rt, &mut seat)?;
    let mut seen = view.at >= 100;
    for i in 0..100u64 {
        let id = JobId::new(u128::from(first) + u128::from(i));
        seen = seen && view.knowledge.get().job(id).is_some();
    }
    Ok((seat, seen))
}

fn two_threads<L: NodeName + Send + Sync, R: Threads + Wait + Sync>(
    rt: &R,
    alloc: Global,
    node: Node<Rebuilder, L>,
    one: Seat<L>,
    two: Seat<L>,
) -> Result<(), Fail> {
    let shared = &node;
    let (one, two) = thread::join(
        rt,
        move || tell_jobs(rt, shared, one, 1_000),
        move || tell_jobs(rt, shared, two, 2_000),
    );
    match (one, two) {
        (Ok((one, true)), Ok((two, true))) => {
            let seats = one_seat(alloc, two)?;
            altered(closed_with(node, seats, one)?)
        }
        _ => Err("each sees its own".into()),
    }
}

// The log of the first seat whose last entry, a view, is made a trim.
fn with_a_trim(mut log: SeatLog) -> Result<SeatLog, Fail> {
    log.entries.pop();
    log.entries.push(Entry {
        by: 1,
        call: Call::Trim(0),
        reply: Reply::Nothing,
    })?;
    Ok(log)
}

// The log of the first seat whose last entry, a view, is said to come one place later in the history.
fn with_a_later_view(mut log: SeatLog) -> Result<SeatLog, Fail> {
    let Some(entry) = log.entries.pop() else {
        return Err("no entry".into());
    };
    let Entry { by, call, reply } = entry;
    let Reply::Seen(at, known) = reply else {
        return Err("no view".into());
    };
    let reply = Reply::Seen(at.saturating_add(1), known);
    log.entries.push(Entry { by, call, reply })?;
    Ok(log)
}

// The first seat's log is given a later place of its view, or a trim in place of it.
fn alter(logs: &mut Vec<SeatLog>, trims: bool) -> Result<(), Fail> {
    let (Some(two), Some(one)) = (logs.pop(), logs.pop()) else {
        return Err("no logs".into());
    };
    let one = if trims {
        with_a_trim(one)?
    } else {
        with_a_later_view(one)?
    };
    logs.push(one)?;
    logs.push(two)?;
    Ok(())
}

fn altered(mut closed: Closed<Rebuilder>) -> Result<(), Fail> {
    if counts(&closed) != (3, 205, 101) {
        return Err("a hundred tells and a view each".into());
    }
    alter(&mut closed.logs, false)?;
    is(
        audit(&closed) == Err(Refusal::NotMine(1)),
        "seat 1 has another view",
    )?;
    alter(&mut closed.logs, true)?;
    is(audit(&closed) == Err(Refusal::NotMine(1)), "seat 1 differs")
}

// A gate that says that it was reached, and waits until something is done.
#[derive(Drop)]
struct Until<'a> {
    reached: &'a AtomicBool,
    done: &'a AtomicBool,
}

impl<'a> Gate for Until<'a> {
    fn hold(&mut self) {
        self.reached.store(true, Ordering::SeqCst);
        let _ = is_set_soon(self.done);
    }
}

// The only answer of a round.
fn answer<L: NodeName, G: Gate + Drop, R: Wait>(
    rt: &R,
    alloc: Global,
    node: &Node<Rebuilder, L>,
    mut seat: Seat<L>,
    mut gate: G,
) -> Result<Option<Answer>, Refusal> {
    let admitted = run_round(rt, alloc, node, &mut seat, &mut gate)?;
    match admitted.get().answers.as_slice() {
        [answer] => Ok(Some(*answer)),
        _ => Ok(None),
    }
}

// Merges that the task is done, once a round is held.
fn merge_done<L: NodeName, R: Wait>(
    rt: &R,
    alloc: Global,
    node: &Node<Rebuilder, L>,
    mut seat: Seat<L>,
    reached: &AtomicBool,
    done: &AtomicBool,
) -> Result<(), Refusal> {
    let over = PROGRESS.attempt(0).phase(Phase::Done).op();
    let packet = packet_from(alloc, 2, 1, &[over])?;
    let _ = is_set_soon(reached);
    node.merge(rt, &mut seat, packet)?;
    done.store(true, Ordering::SeqCst);
    Ok(())
}

fn merge_while_held<L: NodeName + Send + Sync, R: Threads + Wait + Sync>(
    rt: &R,
    alloc: Global,
    node: &Node<Rebuilder, L>,
    one: Seat<L>,
    two: Seat<L>,
) -> Result<(), Fail> {
    let reached = AtomicBool::new(false);
    let done = AtomicBool::new(false);
    let reached = &reached;
    let done = &done;
    let gate = Until { reached, done };
    let (answered, merged) = thread::join(
        rt,
        move || answer(rt, alloc, node, one, gate),
        move || merge_done(rt, alloc, node, two, reached, done),
    );
    merged?;
    is(
        answered? == Some(Answer::Gone),
        "the task is done meanwhile",
    )
}

fn nothing_held<L: NodeName, R: Wait>(
    rt: &R,
    alloc: Global,
    node: &Node<Rebuilder, L>,
    one: Seat<L>,
) -> Result<(), Fail> {
    let answered = answer(rt, alloc, node, one, NoGate)?;
    is(answered == Some(Answer::Accepted), "the task is placed")
}

// The only operation of a round of a share.
fn operation<L: NodeName, R: Wait>(
    rt: &R,
    alloc: Global,
    node: &Node<Rebuilder, L>,
    mut seat: Seat<L>,
    share: &Share,
) -> Result<Option<Op>, Refusal> {
    let mut gate = NoGate;
    let admitted = run_share_round(rt, alloc, node, &mut seat, &mut gate, share)?;
    match admitted.get().ops.as_slice() {
        [op] => Ok(Some(*op)),
        _ => Ok(None),
    }
}

fn share_of_another<L: NodeName, R: Wait>(
    rt: &R,
    alloc: Global,
    node: &Node<Rebuilder, L>,
    one: Seat<L>,
) -> Result<(), Fail> {
    let writer = coordinator_id(2)?;
    let share = Share {
        writers: Some(Writers::of(&[writer])),
        each: None,
    };
    let operation = operation(rt, alloc, node, one, &share)?;
    is(
        operation == Some(PROPOSAL.id(18).op()),
        "the task of the second writer alone is placed",
    )
}

#[test]
fn calls_of_a_seat_are_counted_and_close_wants_all_seats(rt: HostRuntime) -> Result<(), Fail> {
    picked(&rt, rt.alloc(), three_told(rt.alloc())?, Scene::CallsInTurn)
}

#[test]
fn calls_of_two_threads_stand_in_one_history(rt: HostRuntime) -> Result<(), Fail> {
    picked(&rt, rt.alloc(), three_told(rt.alloc())?, Scene::TwoThreads)
}

#[test]
fn a_node_is_called_while_a_round_is_held(rt: HostRuntime) -> Result<(), Fail> {
    picked(
        &rt,
        rt.alloc(),
        three_told(rt.alloc())?,
        Scene::MergeWhileHeld,
    )
}

#[test]
fn a_round_places_a_task(rt: HostRuntime) -> Result<(), Fail> {
    picked(&rt, rt.alloc(), three_told(rt.alloc())?, Scene::NothingHeld)
}

#[test]
fn a_round_of_a_share_places_only_tasks_of_its_writers(rt: HostRuntime) -> Result<(), Fail> {
    picked(
        &rt,
        rt.alloc(),
        four_told(rt.alloc())?,
        Scene::ShareOfAnother,
    )
}
