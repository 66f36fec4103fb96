//! Plans, their admission, and stops.

ghost use Rattle.std.specs.Prelude.{◌≡◌};
ghost use Rattle.fm_net.specs.declared.node.Node.{Node as NodeName};

use crate::coordinators::{coordinator_id, placing};
use crate::samples::{JOB, MACHINE, PROGRESS, PROPOSAL, REPORT, TASK};
use crate::told::{known, tell};
use fm_know::knowledge::Knowledge;
use fm_net::node::Node;
use fm_records::ids::{JobId, MachineId, TaskId};
use fm_records::ops::Op;
use fm_records::refusal::Refusal;
use fm_round::admission::admit;
use fm_round::from_units::plan_of;
use fm_round::listed::Listed;
use fm_round::plan::{Admitted, Answer, Place, Plan, Preempt, Stop};
use fm_round::stops::stops;
use std::alloc::Global;

const A: u128 = 0xa;

const B: u128 = 0xb;

const FIRST: u128 = 0x11;

const SECOND: u128 = 0x12;

// The first task at the machine.
fn propose(attempt: u32, coordinator: u8, machine: u128, incarnation: u64) -> Op {
    PROPOSAL
        .id(FIRST)
        .attempt(attempt)
        .coordinator(coordinator)
        .machine(machine)
        .incarnation(incarnation)
        .op()
}

fn place(task: u128, incarnation: u64) -> Place {
    Place {
        task: TaskId::new(task),
        machine: MachineId::new(A),
        incarnation,
    }
}

fn preempt(attempt: u32) -> Preempt {
    Preempt {
        task: TaskId::new(FIRST),
        attempt,
    }
}

fn on_a() -> Node
    ensures { result ≡ NodeName.Machine 10 }
{
    Node::Machine(MachineId::new(A))
}

fn task(id: u128) -> Node
    ensures { result ≡ NodeName.Task id }
{
    Node::Task(TaskId::new(id))
}

fn unscheduled() -> Node
    ensures { result ≡ NodeName.Unscheduled 1 }
{
    Node::Unscheduled(JobId::new(1))
}

// The functions below have no contract: the tests are of what is answered, and proofs of them stay short. Each holds
// few values if it may be refused: a proof considers what is dropped at each refusal.

// The job, both machines and the first task, and more.
fn usual(alloc: Global, more: &[Op]) -> Result<Knowledge, Refusal> {
    let ops = [
        JOB.op(),
        MACHINE.id(A).op(),
        MACHINE.id(B).op(),
        TASK.id(FIRST).op(),
    ];
    let mut known = known(alloc, &ops)?;
    tell(alloc, &mut known, more)?;
    Ok(known)
}

fn stops_of(alloc: Global, known: &Knowledge, number: u8) -> Result<Vec<Stop>, Refusal> {
    let number = coordinator_id(number)?;
    let stops = stops(alloc, known, number)?;
    Ok(stops)
}

// How many stops there are, and the machine of the first.
fn stopped(alloc: Global, more: &[Op], number: u8) -> Result<(usize, Option<u128>), Refusal> {
    let known = usual(alloc, more)?;
    let stops = stops_of(alloc, &known, number)?;
    let first = match stops.first() {
        Some(stop) => Some(stop.machine.value()),
        None => None,
    };
    Ok((stops.len(), first))
}

fn admitted(
    alloc: Global,
    known: &Knowledge,
    number: u8,
    plan: &Plan,
) -> Result<Admitted, Refusal> {
    let number = coordinator_id(number)?;
    let admitted = admit(alloc, known, number, plan)?;
    Ok(admitted)
}

fn preempting(alloc: Global, preempt: Preempt) -> Result<Plan, Refusal> {
    Ok(Plan {
        places: Listed::new(Vec::new(alloc)),
        preempts: Listed::new([preempt].to_vec(alloc)?),
    })
}

// The only answer, and how many operations there are.
type Judged = (Option<Answer>, usize);

fn judged(alloc: Global, known: &Knowledge, number: u8, plan: &Plan) -> Result<Judged, Refusal> {
    let admitted = admitted(alloc, known, number, plan)?;
    let answer = match admitted.answers.as_slice() {
        [answer] => Some(*answer),
        _ => None,
    };
    Ok((answer, admitted.ops.as_slice().len()))
}

// What is answered to a coordinator that places so, after more than the usual.
fn placed(alloc: Global, more: &[Op], number: u8, place: Place) -> Result<Judged, Refusal> {
    let known = usual(alloc, more)?;
    let plan = placing(alloc, place)?;
    judged(alloc, &known, number, &plan)
}

// What is answered to the first coordinator, which preempts so, after more than the usual.
fn preempted(alloc: Global, more: &[Op], preempt: Preempt) -> Result<Judged, Refusal> {
    let known = usual(alloc, more)?;
    let plan = preempting(alloc, preempt)?;
    judged(alloc, &known, 1, &plan)
}

#[test]
fn the_entry_that_lost_is_a_stop(rt: HostRuntime) {
    let both = [propose(0, 2, B, 1), propose(0, 1, A, 1)];
    assert_eq!(rt; stopped(rt.alloc(), &both, 1), Ok((0, None)));
    assert_eq!(rt; stopped(rt.alloc(), &both, 2), Ok((1, Some(B))));
}

#[test]
fn a_stale_winner_is_passed_over(rt: HostRuntime) {
    let stale = [propose(0, 1, B, 2)];
    let outcome = placed(rt.alloc(), &stale, 1, place(FIRST, 1));
    assert_eq!(rt; outcome, Ok((Some(Answer::Accepted), 2)));
    let contested = [propose(0, 1, B, 2), propose(1, 1, B, 1)];
    let outcome = placed(rt.alloc(), &contested, 2, place(FIRST, 1));
    assert_eq!(rt; outcome, Ok((Some(Answer::Contested), 0)));
}

#[test]
fn a_held_task_is_judged_by_its_rules(rt: HostRuntime) {
    let ops = [propose(0, 1, A, 1), propose(1, 1, B, 1)];
    for (attempt, answer) in [(0, Answer::Contested), (1, Answer::Gone)] {
        let outcome = preempted(rt.alloc(), &ops, preempt(attempt));
        assert_eq!(rt; outcome, Ok((Some(answer), 0)));
    }
    for (incarnation, answer) in [(1, Answer::Held), (2, Answer::Gone)] {
        let outcome = placed(rt.alloc(), &ops, 1, place(FIRST, incarnation));
        assert_eq!(rt; outcome, Ok((Some(answer), 0)));
    }
}

// What is answered where the last attempt runs.
fn placed_last(alloc: Global) -> Result<Judged, Refusal> {
    let ops = [
        JOB.op(),
        MACHINE.id(A).op(),
        TASK.id(FIRST).op(),
        PROGRESS.id(FIRST).attempt(4_294_967_295).op(),
        propose(4_294_967_295, 1, B, 1),
    ];
    let known = known(alloc, &ops)?;
    let plan = placing(alloc, place(FIRST, 1))?;
    judged(alloc, &known, 1, &plan)
}

#[test]
fn the_last_attempt_is_spent(rt: HostRuntime) {
    assert_eq!(rt;
        placed_last(rt.alloc()),
        Ok((Some(Answer::AttemptsSpent), 0))
    );
}

// Whether these are the answers, with as many operations.
fn came_to(admitted: &Admitted, answers: &[Answer], ops: usize) -> bool {
    admitted.answers.as_slice() == answers && admitted.ops.as_slice().len() == ops
}

// The plan of a flow that places both tasks on the machine.
fn both_placed(alloc: Global, known: &Knowledge) -> Result<Plan, Refusal> {
    let flow = [
        ((Node::Request(500), on_a()), 1),
        ((Node::Request(600), on_a()), 1),
        ((on_a(), Node::Sink), 2),
        ((task(FIRST), Node::Request(600)), 1),
        ((task(SECOND), Node::Request(500)), 1),
    ];
    let plan = plan_of(alloc, flow.as_slice(), known)?;
    Ok(plan)
}

// How many places a plan of both tasks has, and whether the second finds no room.
fn both_admitted(alloc: Global, known: &Knowledge) -> Result<(usize, bool), Refusal> {
    let plan = both_placed(alloc, known)?;
    let outcome = admitted(alloc, known, 1, &plan)?;
    let expected = [Answer::Accepted, Answer::NoRoom];
    Ok((
        plan.places.as_slice().len(),
        came_to(&outcome, &expected, 1),
    ))
}

fn second_finds_no_room(alloc: Global) -> Result<(usize, bool), Refusal> {
    let ops = [
        JOB.wait(700).op(),
        MACHINE.id(A).op(),
        TASK.id(FIRST).request(600).op(),
        TASK.id(SECOND).request(500).op(),
    ];
    let known = known(alloc, &ops)?;
    both_admitted(alloc, &known)
}

#[test]
fn the_second_task_finds_no_room(rt: HostRuntime) {
    assert_eq!(rt; second_finds_no_room(rt.alloc()), Ok((2, true)));
}

// The plan of a flow that leaves the first task unscheduled and places the second.
fn second_placed(alloc: Global, known: &Knowledge) -> Result<Plan, Refusal> {
    let flow = [
        ((unscheduled(), Node::Sink), 1),
        ((Node::Request(0), on_a()), 1),
        ((on_a(), Node::Sink), 1),
        ((task(FIRST), unscheduled()), 1),
        ((task(SECOND), Node::Request(0)), 1),
    ];
    let plan = plan_of(alloc, flow.as_slice(), known)?;
    Ok(plan)
}

// How many tasks such a plan preempts, and what came of it.
fn second_admitted(alloc: Global, known: &Knowledge) -> Result<(usize, Admitted), Refusal> {
    let plan = second_placed(alloc, known)?;
    let admitted = admitted(alloc, known, 1, &plan)?;
    Ok((plan.preempts.as_slice().len(), admitted))
}

// What is known after a first round, and whether it has no slot yet for the second task, as the first one is preempted.
fn first_round(alloc: Global, mut known: Knowledge) -> Result<(Knowledge, bool), Refusal> {
    let (_, outcome) = second_admitted(alloc, &known)?;
    tell(alloc, &mut known, outcome.ops.as_slice())?;
    let expected = [Answer::NoSlot, Answer::Accepted];
    Ok((known, came_to(&outcome, &expected, 1)))
}

// How many tasks a next round preempts, and whether the second task is placed.
fn second_round(alloc: Global, known: &Knowledge) -> Result<(usize, bool), Refusal> {
    let (preempts, outcome) = second_admitted(alloc, known)?;
    Ok((preempts, came_to(&outcome, &[Answer::Accepted], 1)))
}

fn both_rounds(alloc: Global) -> Result<(bool, usize, bool), Refusal> {
    let ops = [
        JOB.preempt(80).op(),
        MACHINE.id(A).slots(1).op(),
        TASK.id(FIRST).op(),
        TASK.id(SECOND).request(0).op(),
        REPORT.id(A).op(),
        propose(0, 1, A, 1),
    ];
    let (known, is_preempted) = first_round(alloc, known(alloc, &ops)?)?;
    let (preempts, is_placed) = second_round(alloc, &known)?;
    Ok((is_preempted, preempts, is_placed))
}

#[test]
fn a_dear_task_takes_the_place_of_a_cheap_one(rt: HostRuntime) {
    assert_eq!(rt; both_rounds(rt.alloc()), Ok((true, 0, true)));
}
