//! Schedules that run a task on machines, as examples of what that costs.
//!
//! A lower bound says what such a schedule costs at least. An example says what it costs at most, and which tasks would
//! move. The task's unit is sent there, and a unit on along the cheapest way (`tighten`). A copy of the least flow is
//! changed on these few arcs, tested, and changed back.

ghost use Rattle.std.specs.Prelude.{◌≡◌, ◌⊎◌, Some, IfOk, IfSome, length};
ghost use Rattle.std.specs.List.{All, filter_map, zip};
ghost use Rattle.fm_certificate.specs.PolicyNetwork.{IsBuilt};
ghost use Rattle.fm_certificate.specs.Flows.{units_in};
ghost use Rattle.fm_why.specs.Alternatives.{IsExample, IsExampleFor, move_over, moves_between};

use crate::bounds::CertifiedFlow;
use crate::reasons::{Alternative, Choice, Move};
use crate::running::{Target, has_units, runs_on};
use crate::tighten::Shift;
use fm_certificate::cost::cost;
use fm_certificate::feasible::is_feasible;
use fm_certificate::flow::Flow;
use fm_lattice::join::OutOfMemory;
use fm_net::network::Network;
use fm_net::node::Node;
use fm_records::ids::TaskId;
use std::alloc::Global;

/// For each of the machines, in turn, a schedule that runs the task there, if the one that was found leaves it waiting,
/// and one was found. O(arcs log arcs) for the first, and O((nodes + arcs) log nodes) for each further one.
pub(crate) fn examples_on(
    alloc: Global,
    network: &Network,
    schedule: &CertifiedFlow,
    task: TaskId,
    request: u32,
    machines: &[Choice],
) -> Result<Vec<Option<Alternative>>, OutOfMemory>
    requires { IsBuilt network.now }
    ensures each { IfOk result (λ found.
        All (IsExampleFor network.now (units_in schedule.now.flow) task) (zip machines.now found.items)) }
    ensures all { IfOk result (λ found. length found.items ≡ length machines.now) }
{
    let mut trial = trial_of(alloc, schedule)?;
    let mut found = Vec::new(alloc);
    for choice in machines {
        let machine = choice.machine;
        let aim = Target {
            task,
            request,
            machine,
        };
        let example = example_on(alloc, network, schedule, &aim, &mut trial)?;
        found.push(example)?;
    }
    Ok(found)
}

// A copy of the schedule's flow to try changes on, if that leaves the task waiting.
fn trial_of(alloc: Global, schedule: &CertifiedFlow) -> Result<Option<Flow>, OutOfMemory> {
    match schedule.goal {
        Node::Unscheduled(_) => {
            let mut trial = Flow::new(alloc);
            for (from, to, units) in schedule.flow.iter() {
                trial.put(from, to, units)?;
            }
            Ok(Some(trial))
        }
        Node::Sink | Node::Request(_) | Node::Machine(_) | Node::Task(_) => Ok(None),
    }
}

// A schedule that runs the task on the machine, if there is a flow to try and one was found: of those over its request
// and over an arc of its own the cheaper.
fn example_on(
    alloc: Global,
    network: &Network,
    schedule: &CertifiedFlow,
    aim: &Target,
    trial: &mut Option<Flow>,
) -> Result<Option<Alternative>, OutOfMemory>
    requires { IsBuilt network.now }
    ensures { IfOk result (λ found. IfSome found
        (IsExample network.now (units_in schedule.now.flow) aim.now.task aim.now.machine)) }
{
    match trial {
        Some(trial) => {
            let last = Node::Machine(aim.machine);
            let over = over_request(alloc, network, schedule, aim, trial)?;
            let own = tried(alloc, network, schedule, aim, trial, None, last)?;
            Ok(cheaper(over, own))
        }
        None => Ok(None),
    }
}

// The schedule with the task's unit on its request, and one more from there to the machine if none goes there.
fn over_request(
    alloc: Global,
    network: &Network,
    schedule: &CertifiedFlow,
    aim: &Target,
    trial: &mut Flow,
) -> Result<Option<Alternative>, OutOfMemory>
    requires { IsBuilt network.now }
    ensures { IfOk result (λ found. IfSome found
        (IsExample network.now (units_in schedule.now.flow) aim.now.task aim.now.machine)) }
{
    let via = Node::Request(aim.request);
    let last = Node::Machine(aim.machine);
    if has_units(&schedule.flow, &via, &last) {
        tried(alloc, network, schedule, aim, trial, None, via)
    } else {
        tried(alloc, network, schedule, aim, trial, Some(via), last)
    }
}

// The schedule with the task's unit on the way over these nodes, if it runs the task on the machine. The trial is
// changed to that and back again.
fn tried(
    alloc: Global,
    network: &Network,
    schedule: &CertifiedFlow,
    aim: &Target,
    trial: &mut Flow,
    via: Option<Node>,
    last: Node,
) -> Result<Option<Alternative>, OutOfMemory>
    requires { IsBuilt network.now }
    ensures { IfOk result (λ found. IfSome found
        (IsExample network.now (units_in schedule.now.flow) aim.now.task aim.now.machine)) }
{
    let task = Node::Task(aim.task);
    let Some(shifts) = schedule
        .paths
        .moved(alloc, &schedule.flow, &task, &schedule.goal, via, &last)?
    else {
        return Ok(None);
    };
    shift_on(trial, &shifts)?;
    let found = example_of(alloc, network, &schedule.flow, trial, aim)?;
    shift_back(trial, &shifts)?;
    Ok(found)
}

// Sets the units that arcs have then.
fn shift_on(flow: &mut Flow, shifts: &[Shift]) -> Result<(), OutOfMemory> {
    for shift in shifts {
        flow.put(shift.from, shift.to, shift.after)?;
    }
    Ok(())
}

// Sets the units that they had before.
fn shift_back(flow: &mut Flow, shifts: &[Shift]) -> Result<(), OutOfMemory> {
    for shift in shifts {
        flow.put(shift.from, shift.to, shift.before)?;
    }
    Ok(())
}

// The flow as an example, if it is feasible and runs the task on the machine.
fn example_of(
    alloc: Global,
    network: &Network,
    now: &Flow,
    flow: &Flow,
    aim: &Target,
) -> Result<Option<Alternative>, OutOfMemory>
    requires { IsBuilt network.now }
    ensures { IfOk result (λ found. IfSome found
        (IsExample network.now (units_in now.now) aim.now.task aim.now.machine)) }
{
    if !is_feasible(network, flow) || !runs_on(network, flow, aim) {
        return Ok(None);
    }
    let cost = cost(network, flow);
    let moves = moves_between(alloc, network, now, flow)?;
    Ok(Some(Alternative { cost, moves }))
}

// The cheaper of two.
fn cheaper(over: Option<Alternative>, own: Option<Alternative>) -> Option<Alternative>
    ensures { (result ≡ over) ⊎ (result ≡ own) }
{
    match (over, own) {
        (Some(over), Some(own)) => Some(if own.cost < over.cost { own } else { over }),
        (Some(over), None) => Some(over),
        (None, own) => own,
    }
}

// The tasks whose units go elsewhere in the other flow, with where they go, by id.
fn moves_between(
    alloc: Global,
    network: &Network,
    now: &Flow,
    other: &Flow,
) -> Result<Vec<Move>, OutOfMemory>
    ensures { IfOk result (λ moves. moves.items ≡ moves_between network.now (units_in now.now) (units_in other.now)) }
{
    let mut moves = Vec::new(alloc);
    let mut near = 0usize;
    for (from, to, _, _) in network.arcs() {
        if let Some(found) = move_over(now, other, near, &from, &to) {
            moves.push(found)?;
        }
        near = near.saturating_add(1);
    }
    Ok(moves)
}

// The move over the arc, whose units are looked for near a place first: if a task has its unit there in the other flow alone.
fn move_over(now: &Flow, other: &Flow, near: usize, from: &Node, to: &Node) -> Option<Move>
    ensures { result ≡ move_over (units_in now.now) (units_in other.now) (from.now, to.now) }
{
    match from {
        Node::Task(task) => {
            let before = now.units_near(near, *from, *to).unwrap_or(0);
            let after = other.units_near(near, *from, *to).unwrap_or(0);
            if after > 0 && before == 0 {
                Some(Move {
                    task: *task,
                    to: *to,
                })
            } else {
                None
            }
        }
        Node::Sink | Node::Unscheduled(_) | Node::Request(_) | Node::Machine(_) => None,
    }
}
