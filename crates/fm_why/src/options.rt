//! The machines to which a task has a way, and how much dearer schedules are that run it there, at least.
//!
//! A way goes over the task's request, or over an arc of its own to a machine that it prefers. What either makes dearer
//! follows from reduced costs (`bounds`), so each machine takes a few look-ups and no other flow.

ghost use Rattle.std.specs.Prelude.{◌≡◌, ◌≤◌, ◌<◌, ◌+◌, ◌^◌, IfSome, IfOk, map, option_map};
ghost use Rattle.std.specs.List.{All};
ghost use Rattle.std.specs.List.Sorted.{IsPermutation, IsNonDecreasingBy};
ghost use Rattle.fm_records.specs.Options.{or_else};
ghost use Rattle.fm_certificate.specs.Flows.{units_in};
ghost use Rattle.fm_certificate.specs.Certificates.{potential_in};
ghost use Rattle.fm_net.specs.declared.node.Node.{Node as NodeName};
ghost use Rattle.fm_why.specs.Running.{GoesOver, IsDearer, IsDearerIf};
ghost use Rattle.fm_why.specs.MachineOptions.{cost_at, lesser, way_cost};
ghost use Rattle.fm_why.specs.Bounds.{gap_at};
ghost use Rattle.fm_why.specs.inner.MachineWays.{IsOnlyRequest, machine_ways};
ghost use Rattle.fm_why.specs.inner.Schedule.{IsSchedule, IsBounded};

use crate::bounds::{ArcGap, CertifiedFlow, more_over, toll_of};
use crate::reasons::Choice;
use fm_know::knowledge::Knowledge;
use fm_lattice::join::OutOfMemory;
use fm_net::network::Network;
use fm_net::node::Node;
use fm_records::ids::{MachineId, TaskId};
use std::alloc::Global;

/// The machines to which the task has a way, the cheapest first, and by id if it costs the same. The caller must pass
/// the request of the task. O(machines log n).
pub(crate) fn choices_of(
    alloc: Global,
    knowledge: &Knowledge,
    network: &Network,
    schedule: &CertifiedFlow,
    task: TaskId,
    request: u32,
) -> Result<Vec<Choice>, OutOfMemory>
    requires schedule { IsSchedule network.now schedule.now }
    requires only { IsOnlyRequest network.now task request }
    ensures each { IfOk result (λ all. All (IsBounded network.now schedule.now task request) all.items) }
    ensures all { IfOk result (λ all.
        IsPermutation (machine_ways knowledge.now network.now task request) (map (λ e. e.machine) all.items)) }
    ensures cheapest_first { IfOk result (λ all. IsNonDecreasingBy (λ e. e.dearer) all.items) }
{
    let mut found = listed(alloc, knowledge, network, schedule, task, request)?;
    found.sort_by_key(|choice| choice.dearer)?;
    Ok(found)
}

// These machines, by id.
fn listed(
    alloc: Global,
    knowledge: &Knowledge,
    network: &Network,
    schedule: &CertifiedFlow,
    task: TaskId,
    request: u32,
) -> Result<Vec<Choice>, OutOfMemory>
    requires schedule { IsSchedule network.now schedule.now }
    requires only { IsOnlyRequest network.now task request }
    ensures each { IfOk result (λ all. All (IsBounded network.now schedule.now task request) all.items) }
    ensures all { IfOk result (λ all. map (λ e. e.machine) all.items
        ≡ machine_ways knowledge.now network.now task request) }
{
    let mut found = Vec::new(alloc);
    for (machine, _) in knowledge.machines().iter() {
        if let Some(choice) = choice_of(network, schedule, task, request, *machine) {
            found.push(choice)?;
        }
    }
    Ok(found)
}

// What the cheaper way of the task to the machine costs, and how much dearer schedules are that run it there.
fn choice_of(
    network: &Network,
    schedule: &CertifiedFlow,
    task: TaskId,
    request: u32,
    machine: MachineId,
) -> Option<Choice>
    requires schedule { IsSchedule network.now schedule.now }
    requires only { IsOnlyRequest network.now task request }
    ensures way { option_map (λ e. e.cost) result ≡ way_cost network.now task request machine }
    ensures machine { IfSome result (λ e. e.machine ≡ machine) }
    ensures dearer { IfSome result (λ e. IsDearer network.now schedule.now.least task machine e.dearer) }
    ensures fits { IfSome result (λ e. e.dearer < 2 ^ 111) }
    ensures bounded { IfSome result (IsBounded network.now schedule.now task request) }
{
    let over = over_request(network, schedule, task, request, machine);
    let own = toll_of(
        network,
        schedule,
        &Node::Task(task),
        &Node::Machine(machine),
    );
    let way = cheaper(over, own)?;
    Some(Choice {
        machine,
        cost: way.cost,
        dearer: way.more,
    })
}

// What the way over the request costs, and how much dearer schedules are that go over both of its arcs.
fn over_request(
    network: &Network,
    schedule: &CertifiedFlow,
    task: TaskId,
    request: u32,
    machine: MachineId,
) -> Option<ArcGap>
    requires { IsSchedule network.now schedule.now }
    ensures cost { option_map (λ e. e.cost) result
        ≡ cost_at network.now (NodeName.Request request) (NodeName.Machine machine) }
    ensures dearer { IfSome result (λ e.
        IsDearerIf network.now schedule.now.least (GoesOver network.now task request machine) e.more) }
    ensures fits { IfSome result (λ e. e.more < 2 ^ 111) }
    ensures more { option_map (λ e. e.more) result ≡ option_map
        (λ gap. or_else 0 (gap_at network.now (units_in schedule.now.flow) (potential_in schedule.now.potentials)
        (NodeName.Task task) (NodeName.Request request)) + gap)
        (gap_at network.now (units_in schedule.now.flow) (potential_in schedule.now.potentials)
        (NodeName.Request request) (NodeName.Machine machine)) }
{
    network.known();
    let via = Node::Request(request);
    let first = more_over(network, schedule, &Node::Task(task), &via);
    let second = toll_of(network, schedule, &via, &Node::Machine(machine))?;
    Some(ArcGap {
        cost: second.cost,
        more: first + second.more,
    })
}

// The lesser cost of two ways, and the lesser of what they make dearer; that of one, if there is no other.
fn cheaper(over: Option<ArcGap>, own: Option<ArcGap>) -> Option<ArcGap>
    ensures cost { option_map (λ e. e.cost) result
        ≡ lesser (option_map (λ e. e.cost) over) (option_map (λ e. e.cost) own) }
    ensures over { IfSome result (λ e. IfSome over (λ a. e.more ≤ a.more)) }
    ensures own { IfSome result (λ e. IfSome own (λ b. e.more ≤ b.more)) }
    ensures more { option_map (λ e. e.more) result
        ≡ lesser (option_map (λ e. e.more) over) (option_map (λ e. e.more) own) }
{
    match (over, own) {
        (Some(over), Some(own)) => Some(ArcGap {
            cost: over.cost.min(own.cost),
            more: over.more.min(own.more),
        }),
        (Some(over), None) => Some(over),
        (None, own) => own,
    }
}
