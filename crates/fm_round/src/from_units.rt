//! The plan of a flow: which task goes to which machine, where a flow only says how many of a request go there.
//!
//! Tasks of a request are alike to a flow, so any assignment of them costs the same. For a flow to have one plan, the
//! i-th task by id goes to the i-th machine by id, where a machine counts as often as units go to it. As in Quincy
//! (Isard et al., 2009) a unit through a machine means to run there, and one of a held task to its job to preempt it.

ghost use Rattle.std.specs.Prelude.{◌≡◌, ◌==◌, ◌++◌, ℕ, None, not, cond, drop, length, replicate, option_to_list, IfOk, OnOk};
ghost use Rattle.std.specs.List.{filter_map, slice_get};
ghost use Rattle.fm_lattice.specs.Maps.{IsRising};
ghost use Rattle.fm_net.specs.Nodes.{ends_cmp};
ghost use Rattle.fm_net.specs.Network.{is_held};
ghost use Rattle.fm_round.specs.PlanOfFlow.{wait_in, seats_in, unscheduled_in, waits, seats, tasks_of, machines_of, place_at, place_in_plan, preempt_of, plan_of_flow};
ghost use Rattle.fm_round.specs.inner.UnitQueues.{queue_of, placed_next, HasNoRepeat};
ghost use Rattle.fm_records.specs.Options.{and_then, when};

use crate::listed::Listed;
use crate::plan::{Place, Plan, Preempt};
use fm_know::knowledge::Knowledge;
use fm_lattice::join::OutOfMemory;
use fm_net::node::Node;
use fm_records::ids::{MachineId, TaskId};
use std::alloc::Global;
use std::collections::{BTreeMap, VecDeque};

/// The plan of a flow, which is given as its arcs with their units, in the order of their ends: within an aggregator of
/// a request the i-th task that has a unit to it goes to the i-th machine, where a machine is listed as often as there
/// are units to it; a task that is not held and has a unit straight to a machine goes there; each at the machine's
/// present incarnation. A held task that has a unit to its job is preempted at its present attempt. Both in the order
/// of the tasks' ids. O(n log n) in the arcs and the units.
pub fn plan_of(
    alloc: Global,
    flow: &[((Node, Node), u64)],
    knowledge: &Knowledge,
) -> Result<Plan, OutOfMemory>
    requires { IsRising ends_cmp flow.now }
    ensures { IfOk result (λ plan. plan ≡ plan_of_flow flow.now knowledge.now) }
{
    let seats = seats_of(alloc, flow)?;
    let places = places_of(alloc, flow, seats.as_slice(), knowledge)?;
    let preempts = preempts_of(alloc, flow, knowledge)?;
    Ok(Plan {
        places: Listed::new(places),
        preempts: Listed::new(preempts),
    })
}

/// A unit that a flow sends from an aggregator of a request to a machine.
#[derive(Clone, Copy, Drop)]
pub(crate) struct RequestUnit {
    pub(crate) request: u32,
    pub(crate) machine: MachineId,
}

// The task, if it has a unit to its job.
fn unscheduled_in(from: Node, to: Node, units: u64) -> Option<TaskId>
    ensures { result ≡ unscheduled_in ((from, to), units) }
{
    let Node::Task(task) = from else {
        return None;
    };
    match to {
        Node::Unscheduled(_) if units > 0 => Some(task),
        _ => None,
    }
}

// The machines with units from requests, once for each unit.
fn seats_of(alloc: Global, flow: &[((Node, Node), u64)]) -> Result<Vec<RequestUnit>, OutOfMemory>
    ensures { IfOk result (λ found. found.items ≡ seats flow.now) }
{
    let mut found = Vec::new(alloc);
    for arc in flow {
        add_seats(&mut found, arc.0.0, arc.0.1, arc.1)?;
    }
    Ok(found)
}

// Adds the seats of one arc.
fn add_seats(
    seats: &mut Vec<RequestUnit>,
    from: Node,
    to: Node,
    units: u64,
) -> Result<(), OutOfMemory>
    ensures { OnOk result (seats.new.items ≡ seats.old.items ++ seats_in ((from, to), units)) }
{
    match (from, to) {
        (Node::Request(request), Node::Machine(machine)) => {
            push_times(seats, &RequestUnit { request, machine }, units)
        }
        _ => Ok(()),
    }
}

// Pushes the seat so many times.
fn push_times(
    seats: &mut Vec<RequestUnit>,
    seat: &RequestUnit,
    times: u64,
) -> Result<(), OutOfMemory>
    ensures { OnOk result (seats.new.items ≡ seats.old.items ++ replicate times seat.now) }
{
    for i in 0..times {
        seats.push(*seat)?;
    }
    Ok(())
}

/// The machines of seats that no task took yet, by request, in the order of the seats.
#[derive(Drop)]
pub(crate) struct Queues {
    pub(crate) by_request: BTreeMap<u32, VecDeque<MachineId>>,
}

impl Queues {
    // The machines of all seats.
    fn of(alloc: Global, seats: &[RequestUnit]) -> Result<Queues, OutOfMemory>
        ensures { IfOk result (λ queues. (r : ℕ) → queue_of queues r ≡ machines_of r seats.now) }
    {
        let mut queues = Queues {
            by_request: BTreeMap::new(alloc),
        };
        for seat in seats {
            queues.add(alloc, seat)?;
        }
        Ok(queues)
    }

    // Adds the machine of a seat after those of its request.
    fn add(&mut self, alloc: Global, seat: &RequestUnit) -> Result<(), OutOfMemory>
        ensures { OnOk result ((r : ℕ) → queue_of self.new r
            ≡ queue_of self.old r ++ option_to_list (when (seat.now.request == r) seat.now.machine)) }
    {
        let queue = self
            .by_request
            .entry(seat.request)?
            .or_insert(VecDeque::new(alloc));
        queue.push_back(seat.machine)?;
        Ok(())
    }

    // Takes the first machine of the request that is left.
    fn take(&mut self, request: u32) -> Option<MachineId>
        ensures first { result ≡ slice_get (queue_of self.old request) 0 }
        ensures rest { (r : ℕ) → queue_of self.new r ≡ drop (cond (request == r) 1 0) (queue_of self.old r) }
    {
        self.by_request.get_mut(&request)?.pop_front()
    }

    // Where the task of an arc with units goes: on the first machine that is left of its request, or where it has a
    // unit to.
    fn placed(&mut self, knowledge: &Knowledge, from: Node, to: Node, units: u64) -> Option<Place>
        ensures place { result ≡ placed_next (queue_of self.old) knowledge.now ((from, to), units) }
        ensures rest { (r : ℕ) → queue_of self.new r
            ≡ drop (length (tasks_of r (option_to_list (wait_in ((from, to), units))))) (queue_of self.old r) }
    {
        let Node::Task(task) = from else {
            return None;
        };
        if units == 0 {
            return None;
        }
        match to {
            Node::Request(request) => {
                let machine = self.take(request);
                place_of(knowledge, task, machine)
            }
            Node::Machine(machine) => place_straight(knowledge, task, machine),
            _ => None,
        }
    }
}

// The place of a task that is sent straight to the machine, unless some machine holds it.
fn place_straight(knowledge: &Knowledge, task: TaskId, machine: MachineId) -> Option<Place>
    ensures { result ≡ cond (not (is_held knowledge.now task)) (place_at knowledge.now task machine) None }
{
    if knowledge.holder(task).is_some() {
        return None;
    }
    place_at(knowledge, task, machine)
}

// The places of the tasks: each that waits takes the first machine that is left of its request, so the i-th goes to the
// i-th seat.
fn places_of(
    alloc: Global,
    flow: &[((Node, Node), u64)],
    seats: &[RequestUnit],
    knowledge: &Knowledge,
) -> Result<Vec<Place>, OutOfMemory>
    requires { HasNoRepeat (waits flow.now) }
    ensures { IfOk result
        (λ found. found.items ≡ filter_map (place_in_plan (waits flow.now) seats.now knowledge.now) flow.now) }
{
    let mut queues = Queues::of(alloc, seats)?;
    let mut found = Vec::new(alloc);
    for arc in flow {
        let place = queues.placed(knowledge, arc.0.0, arc.0.1, arc.1);
        push_some(&mut found, place)?;
    }
    Ok(found)
}

// Pushes the place, if there is one.
fn push_some(places: &mut Vec<Place>, place: Option<Place>) -> Result<(), OutOfMemory>
    ensures { OnOk result (places.new.items ≡ places.old.items ++ option_to_list place) }
{
    if let Some(place) = place {
        places.push(place)?;
    }
    Ok(())
}

// The place of the task on the machine, if there is one, at its present incarnation.
fn place_of(knowledge: &Knowledge, task: TaskId, machine: Option<MachineId>) -> Option<Place>
    ensures { result ≡ and_then (place_at knowledge.now task) machine }
{
    match machine {
        Some(machine) => place_at(knowledge, task, machine),
        None => None,
    }
}

/// The place of the task on the machine, at its present incarnation; None if the machine is not known. O(log n).
pub fn place_at(knowledge: &Knowledge, task: TaskId, machine: MachineId) -> Option<Place>
    ensures { result ≡ place_at knowledge.now task machine }
{
    match knowledge.machines().get(&machine) {
        Some(record) => Some(Place {
            task,
            machine,
            incarnation: record.0,
        }),
        None => None,
    }
}

// The preempts of the held tasks with a unit to their job.
fn preempts_of(
    alloc: Global,
    flow: &[((Node, Node), u64)],
    knowledge: &Knowledge,
) -> Result<Vec<Preempt>, OutOfMemory>
    ensures { IfOk result
        (λ found. found.items ≡ filter_map (preempt_of knowledge.now) (filter_map unscheduled_in flow.now)) }
{
    let mut found = Vec::new(alloc);
    for arc in flow {
        if let Some(task) = unscheduled_in(arc.0.0, arc.0.1, arc.1) {
            if let Some(preempt) = preempt_of(knowledge, task) {
                found.push(preempt)?;
            }
        }
    }
    Ok(found)
}

/// The preempt of the task at its present attempt; None if no machine holds it. O(log n).
pub fn preempt_of(knowledge: &Knowledge, task: TaskId) -> Option<Preempt>
    ensures { result ≡ preempt_of knowledge.now task }
{
    let _machine = knowledge.holder(task)?;
    Some(Preempt {
        task,
        attempt: knowledge.attempt(task).attempt,
    })
}
